// Orders by the string: a run reads the records of a lent string and makes their calls. The definitions stand in `strings`.
#![tactic(auto)]

ghost use Rattle.std.specs.Prelude.{◌≡◌, ◌≤◌, length};
ghost use Rattle.strings.specs.Refusals.{run_by};
ghost use Rattle.strings.specs.Run.{is_read, run_on, run_of, given, ended};
ghost use Rattle.orders.specs.Steps.{Takes};

use records::reader::next_at;
use rules::{Call, Made, Refusal, State};
use strings::{RunAnswer, RunRefusal};

// A record whose call has been made: what that gave, and the index after the record.
#[derive(Clone, Copy)]
struct Taken {
    made: Made,
    next: usize,
}

// Whether a call answers with a byte.
pub fn is_read(call: Call) -> bool
    ensures { result ≡ is_read call }
{
    matches!(call, Call::Read(_))
}

// Makes the call of the record at an index, if the string has not ended there.
fn take(state: State, string: &[u8], at: usize) -> Result<Option<Taken>, RunRefusal>
    ensures { Takes result state string.now at }
{
    let Some(found) = next_at(string, at)? else {
        return Ok(None);
    };
    let made = calls::make(state, found.call)?;
    Ok(Some(Taken {
        made,
        next: found.next,
    }))
}

// A run that has taken nothing.
fn begun(state: State) -> RunAnswer
    ensures { result ≡ record { outcome = Ok tt; taken = 0; answered = 0; state = state } }
{
    RunAnswer {
        outcome: Ok(()),
        taken: 0,
        answered: 0,
        state,
    }
}

// Takes the records of a string, as many as allowed, for a run that has taken none and has room for the answers. The index goes on where a
// record ended, and an answer stands where the last one ended, so neither is the loop's.
fn take_records(
    run: &mut RunAnswer,
    string: &[u8],
    allowance: u32,
    answers: &mut [u8],
) -> Result<(), RunRefusal>
    requires none_taken { (run.old.taken ≡ 0) × (run.old.answered ≡ 0) }
    requires room { length string.now ≤ length answers.old }
    ensures { given (run_by (record run.new { outcome = result })) answers.new
        ≡ ended (run_on allowance run.old.state string.now) answers.old }
{
    let mut at = 0;
    for taken in 0..allowance {
        let Some(one) = take(run.state, string, at)? else {
            return Ok(());
        };
        if let Some(byte) = one.made.byte {
            answers[run.answered] = byte;
            run.answered += 1;
        }
        run.taken = taken + 1;
        run.state = one.made.state;
        at = one.next;
    }
    Ok(())
}

// Makes the calls of a string's records, one after the other, and at most as many as allowed.
pub fn run(state: State, string: &[u8], allowance: u32, answers: &mut [u8]) -> RunAnswer
    ensures { given (run_by result) answers.new ≡ run_of state string.now allowance answers.old }
{
    let mut run = begun(state);
    run.outcome = if !device::valid::valid(state) {
        Err(Refusal::StateNotValid.into())
    } else if answers.len() < string.len() {
        Err(RunRefusal::AnswersTooShort)
    } else {
        take_records(&mut run, string, allowance, answers)
    };
    run
}
