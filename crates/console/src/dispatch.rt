// A line's command, and the function that answers it.
ghost use Rattle.std.specs.Prelude.{◌+◌, ◌≤◌, ◌≡◌, length};
ghost use Rattle.console_outcome.specs.Outcome.{told_of, fresh};
ghost use Rattle.console.specs.Answers.{longest_answer, made_told, record_told, told_by, Prints, Shows, AnswersRequest, Stays, AnswersAs, AnswersLine};

use crate::{errors, help};
use console_answers::{cabin, controller, speeds};
use console_commands::{Arguments, Parsed, Reason, kinds};
use console_galley::{commands, degrees, show};
use console_orders::{decoded, packets};
use console_outcome::hand::Hand;
use console_outcome::outcome::{BUFFER_BYTES, Outcome, UNTOUCHED};
use console_outcome::print;
use console_table::{Request, Verb, View};
use lent::{Page, value};
use strings::Kind;

// What a command works on: what is in hand, and the arguments of its line.
#[derive(Clone, Copy)]
struct Given<'a> {
    hand: Hand,
    arguments: &'a Arguments,
}

fn fresh_buffer() -> [u8; BUFFER_BYTES]
    ensures { result ≡ fresh }
{
    [UNTOUCHED; BUFFER_BYTES]
}

// Prints an outcome whose bytes stand in a buffer, and gives what is in hand then.
fn printed(page: &mut Page, outcome: Outcome, buffer: &[u8]) -> Hand
    requires { length buffer.now ≤ BUFFER_BYTES }
    ensures prints { Prints (told_of outcome buffer.now) page.old page.new result }
    ensures at_bound { page.new.at ≤ page.old.at + longest_answer }
{
    let hand = outcome.hand;
    print::put_outcome(page, outcome, buffer);
    hand
}

impl<'a> Given<'a> {
    // What a command makes of it.
    fn outcome_of(self, verb: Verb, buffer: &mut [u8; BUFFER_BYTES]) -> Outcome
        ensures { told_of result buffer.new ≡ told_by self.entry.hand self.entry.arguments.now.values self.entry.arguments.now.bytes buffer.old verb }
    {
        match verb {
            Verb::Start => controller::begin(self.hand, &self.arguments.values),
            Verb::FanFail => controller::ask_fan_fail(self.hand),
            Verb::Dump => controller::dump(self.hand),
            Verb::Load => controller::load(self.hand, &self.arguments.values),
            Verb::Run => packets::run_string(
                self.hand,
                &self.arguments.values,
                &self.arguments.bytes,
                buffer,
            ),
            Verb::GalleyFresh => commands::begin(self.hand, &self.arguments.values),
            Verb::GalleySample => commands::sample(
                self.hand,
                &self.arguments.values,
                &self.arguments.bytes,
            ),
            Verb::GalleySpan => commands::span(
                self.hand,
                &self.arguments.values,
                &self.arguments.bytes,
                buffer,
            ),
            Verb::GalleyDump => commands::dump(self.hand),
            Verb::GalleyLoad => commands::load(self.hand, &self.arguments.values),
        }
    }

    // Puts a text of its own.
    fn put_view(self, page: &mut Page, view: View)
        ensures shows { Shows self.entry.hand self.entry.arguments.now.values page.old page.new view }
        ensures at_bound { page.new.at ≤ page.old.at + longest_answer }
    {
        match view {
            View::Cabin => cabin::put_cabin(page, self.hand.state),
            View::Speed => speeds::put_speed(page, &self.arguments.values),
            View::Show => console_show::put_show(page, self.hand.state),
            View::Chart => console_chart::put_chart(
                page,
                self.hand.state,
                value(&self.arguments.values, 0),
            ),
            View::Decode => decoded::put_decoded(
                page,
                &self.arguments.values,
                &self.arguments.bytes,
            ),
            View::GalleyRead => degrees::put_degrees(page, self.hand.galley),
            View::GalleyShow => show::put_galley(page, self.hand.galley),
            View::Help => help::put_help(page),
        }
    }

    // Makes the call of a kind, of the first two numbers of the line.
    fn answer_call(self, page: &mut Page, kind: Kind) -> Hand
        ensures prints { Prints (made_told self.entry.hand self.entry.arguments.now.values kind) page.old page.new result }
        ensures at_bound { page.new.at ≤ page.old.at + longest_answer }
    {
        let call = kinds::call_by(
            kind,
            value(&self.arguments.values, 0),
            value(&self.arguments.values, 1),
        );
        let outcome = controller::make(self.hand, call, orders::is_read(call));
        printed(page, outcome, &[])
    }

    // The record of a kind, of the first two numbers of the line.
    fn answer_record(self, page: &mut Page, kind: Kind) -> Hand
        ensures prints { Prints (record_told self.entry.hand self.entry.arguments.now.values kind) page.old page.new result }
        ensures at_bound { page.new.at ≤ page.old.at + longest_answer }
    {
        let order = kinds::order_by(
            kind,
            value(&self.arguments.values, 0),
            value(&self.arguments.values, 1),
        );
        let mut buffer = fresh_buffer();
        let outcome = packets::encode_record(self.hand, order, &mut buffer);
        printed(page, outcome, &buffer)
    }

    fn answer_verb(self, page: &mut Page, verb: Verb) -> Hand
        ensures prints { Prints (told_by self.entry.hand self.entry.arguments.now.values self.entry.arguments.now.bytes fresh verb) page.old page.new result }
        ensures at_bound { page.new.at ≤ page.old.at + longest_answer }
    {
        let mut buffer = fresh_buffer();
        let outcome = self.outcome_of(verb, &mut buffer);
        printed(page, outcome, &buffer)
    }

    fn answer_request(self, page: &mut Page, request: Request) -> Hand
        ensures answers_request { AnswersRequest self.entry.hand page.old page.new result request self.entry.arguments.now.values self.entry.arguments.now.bytes }
        ensures at_bound { page.new.at ≤ page.old.at + longest_answer }
    {
        match request {
            Request::Call(kind) => self.answer_call(page, kind),
            Request::Verb(verb) => self.answer_verb(page, verb),
            Request::View(view) => {
                self.put_view(page, view);
                self.hand
            }
        }
    }

    fn answer_parsed(self, page: &mut Page, parsed: Parsed) -> Hand
        ensures answers_as { AnswersAs self.entry.hand page.old page.new result (Ok parsed) self.entry.arguments.now.values self.entry.arguments.now.bytes }
        ensures at_bound { page.new.at ≤ page.old.at + longest_answer }
    {
        match parsed {
            Parsed::For(request) => self.answer_request(page, request),
            Parsed::Encode(kind) => self.answer_record(page, kind),
        }
    }
}

// Says why a line, counted from 1, is no call.
pub fn refuse(page: &mut Page, reason: Reason, number: u32, hand: Hand) -> Hand
    ensures { Stays hand page.old page.new result }
{
    errors::put_error(page, reason, number);
    hand
}

// Answers a line as the command that it is, and gives what is in hand after it.
pub fn answer(page: &mut Page, line: &[u8], number: u32, hand: Hand) -> Hand
    ensures answers_line { AnswersLine hand page.old page.new result line.now }
    ensures at_bound { page.new.at ≤ page.old.at + longest_answer }
    ensures same { page.new.bytes.ghost_name ≡ page.old.bytes.ghost_name }
{
    let mut arguments = Arguments::default();
    match console_commands::parse_line(line, &mut arguments) {
        Ok(parsed) => {
            let given = Given {
                hand,
                arguments: &arguments,
            };
            given.answer_parsed(page, parsed)
        }
        Err(reason) => refuse(page, reason, number, hand),
    }
}
