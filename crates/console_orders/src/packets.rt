// `run` and `encode`.
ghost use Rattle.std.specs.Prelude.{◌≡◌};
ghost use Rattle.strings.specs.Refusals.{outcome_number};
ghost use Rattle.console_outcome.specs.Outcome.{told_of};
ghost use Rattle.console_orders.specs.Packets.{run_told, encode_told};

use console_outcome::hand::Hand;
use console_outcome::outcome::{BUFFER_BYTES, Outcome, tell_as};
use encode::encode;
use lent::{front, value};
use orders::run;
use strings::{Order, RunRefusal};

// Why a run stopped, and 0 where nothing stopped it.
fn refusal_number(outcome: Result<(), RunRefusal>) -> u32
    ensures { result ≡ outcome_number outcome }
{
    match outcome {
        Ok(()) => 0,
        Err(refusal) => u32::from(refusal.number()),
    }
}

// Runs a string on the state in hand, with a part of the buffer for its answers.
pub fn run_string(hand: Hand, values: &[u32], bytes: &[u8], buffer: &mut [u8]) -> Outcome
    ensures { told_of result buffer.new ≡ run_told hand values.now bytes.now buffer.old }
{
    let string = front(bytes, value(values, 0) as usize);
    let room = (value(values, 2) as usize).min(buffer.len());
    let ran = run(hand.state, string, value(values, 1), &mut buffer[..room]);
    let refusal = refusal_number(ran.outcome);
    tell_as(
        hand.with_state(ran.state),
        &[refusal, ran.taken, ran.answered as u32],
        false,
        Some(room),
    )
}

pub fn encode_record(hand: Hand, order: Order, buffer: &mut [u8; BUFFER_BYTES]) -> Outcome
    ensures { told_of result buffer.new ≡ encode_told hand order }
{
    let long = encode(order, buffer, 0);
    tell_as(hand, &[], false, Some(long))
}
