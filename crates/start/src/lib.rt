// The call start.
#![tactic(auto)]

ghost use Rattle.std.specs.Prelude.{◌≡◌};
ghost use Rattle.rules.specs.Start.{zero_state, start_of};
ghost use Rattle.rules.specs.Calls.{answer_by};

use device::fresh::as_at_start;
use rules::{Refusal, StartValues, State};

// The state in hand after a refused start: of a start's result, `unwrap_or_default` gives it.
pub fn zero_state() -> State
    ensures { result ≡ zero_state }
{
    State::default()
}

// The state of a box that has just been powered on, with the values that its pins set.
#[tactic(auto, unfolding(rules::specs::Start::start_of, rules::specs::Valid::valid_start))]
pub fn start(
    watchdog: u32,
    spinup: u32,
    target: u32,
    frequency: u8,
    modification: u32,
) -> Result<State, Refusal>
    ensures { answer_by zero_state result ≡ start_of watchdog spinup target frequency modification }
{
    if !((watchdog < 4) & (spinup < 4) & (target < 512) & (modification < 2)) {
        return Err(Refusal::StartOutOfRange);
    }
    // In range, as was tested, so nothing is lost.
    let start = StartValues {
        watchdog: watchdog as u8,
        spinup: spinup as u8,
        target: target as u16,
        frequency,
        modification: modification as u8,
    };
    Ok(as_at_start(start, 0, true))
}
