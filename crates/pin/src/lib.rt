// The level of the pin FULL_SPEED.
#![tactic(auto)]

ghost use Rattle.std.specs.Prelude.{◌≡◌};
ghost use Rattle.rules.specs.Calls.{answer_by};
ghost use Rattle.rules.specs.Pin.{pin_of};

use device::valid::valid;
use rules::{Refusal, State};

// Stores the level and nothing else: it is no access to a register, so the watchdog is not fed.
#[tactic(auto, unfolding(rules::specs::Pin::pin_of))]
pub fn set_pin(state: State, high: bool) -> Result<State, Refusal>
    ensures { answer_by state result ≡ pin_of state high }
{
    if !valid(state) {
        return Err(Refusal::StateNotValid);
    }
    Ok(State { pin: high, ..state })
}
