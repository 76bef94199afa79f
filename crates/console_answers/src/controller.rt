// The commands that start and drive the controller, ask it, and take its numbers.
ghost use Rattle.std.specs.Prelude.{◌≡◌};
ghost use Rattle.rules.specs.Calls.{answer_by, read_answer};
ghost use Rattle.rules.specs.Start.{zero_state};
ghost use Rattle.console_outcome.specs.Outcome.{tells, Tells};
ghost use Rattle.console_answers.specs.Device.{call_numbers, start_by, call_told, start_told, fan_fail_told, dump_told, load_told};

use console_outcome::hand::Hand;
use console_outcome::outcome::{Outcome, tell};
use lent::{byte, value};
use numbers::{numbers_of, state_of};
use rules::{Call, Refusal, State};

// Tells the refusal of a call, and of one that reads a byte besides, by the numbers that are printed (`call_numbers`).
fn tell_call(hand: Hand, reads: bool, refusal: u8, byte: u8) -> Outcome
    ensures { Tells result (tells hand (call_numbers reads (read_answer refusal byte hand.state))) }
{
    if reads {
        return tell(hand, &[u32::from(refusal), u32::from(byte)]);
    }
    tell(hand, &[u32::from(refusal)])
}

// Makes a call. A call that reads answers a byte besides.
pub fn make(hand: Hand, call: Call, reads: bool) -> Outcome
    ensures { Tells result (call_told hand call reads) }
{
    match calls::make(hand.state, call) {
        Ok(made) => tell_call(
            hand.with_state(made.state),
            reads,
            0,
            made.byte.unwrap_or(0),
        ),
        Err(refusal) => tell_call(hand, reads, refusal.number(), 0),
    }
}

fn start_by(values: &[u32]) -> Result<State, Refusal>
    ensures { answer_by zero_state result ≡ start_by values.now }
{
    start::start(
        value(values, 0),
        value(values, 1),
        value(values, 2),
        byte(values, 3),
        value(values, 4),
    )
}

pub fn begin(hand: Hand, values: &[u32]) -> Outcome
    ensures { Tells result (start_told hand values.now) }
{
    match start_by(values) {
        Ok(state) => tell(hand.with_state(state), &[0]),
        Err(refusal) => tell(
            hand.with_state(start::zero_state()),
            &[u32::from(refusal.number())],
        ),
    }
}

pub fn ask_fan_fail(hand: Hand) -> Outcome
    ensures { Tells result (fan_fail_told hand) }
{
    match fan_fail::fan_fail(hand.state) {
        Ok(None) => tell(hand, &[0, 0, 0, 0]),
        Ok(Some(failed)) => tell(hand, &[0, 1, failed.count, failed.lowest]),
        Err(refusal) => tell(hand, &[u32::from(refusal.number()), 0, 0, 0]),
    }
}

pub fn dump(hand: Hand) -> Outcome
    ensures { Tells result (dump_told hand) }
{
    tell(hand, &numbers_of(hand.state))
}

pub fn load(hand: Hand, values: &[u32]) -> Outcome
    ensures { Tells result (load_told hand values.now) }
{
    tell(hand.with_state(state_of(values)), &[])
}
