// A line that has ended, and what it answers.
ghost use Rattle.std.specs.Prelude.{◌≡◌, ◌+◌, ◌≤◌};
ghost use Rattle.console.specs.Answers.{longest_answer};
ghost use Rattle.console.specs.Lines.{AnswersEnded};

use crate::dispatch;
use crate::dispatch::refuse;
use console_commands::Reason;
use console_outcome::hand::Hand;
use console_text::gathered::{Ended, Gathered};
use lent::{Page, front};

// Answers a line that has ended, and gives what is in hand after it.
pub fn answer(page: &mut Page, line: &[u8], gathered: Gathered, number: u32, hand: Hand) -> Hand
    ensures answers_ended { AnswersEnded hand page.old page.new result gathered.kept gathered.total line.now }
    ensures at_bound { page.new.at ≤ page.old.at + longest_answer }
    ensures same { page.new.bytes.ghost_name ≡ page.old.bytes.ghost_name }
{
    match gathered.end(line) {
        Ended::Skipped => hand,
        Ended::TooLong => refuse(page, Reason::LineTooLong, number, hand),
        Ended::Whole(end) => dispatch::answer(page, front(line, end), number, hand),
    }
}
