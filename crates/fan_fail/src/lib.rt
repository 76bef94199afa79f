// The FAN_FAIL query.
#![tactic(auto)]

ghost use Rattle.std.specs.Prelude.{◌≡◌};
ghost use Rattle.rules.specs.FanFail.{fan_fail_by, fan_fail_of};

use device::duty::fault_byte;
use device::valid::valid;
use rules::{Failed, Refusal, State};

// The unmasked channels that have failed, if there are any: then FAN_FAIL is asserted.
#[tactic(auto, unfolding(rules::specs::FanFail::fan_fail_of))]
pub fn fan_fail(state: State) -> Result<Option<Failed>, Refusal>
    ensures { fan_fail_by state result ≡ fan_fail_of state }
{
    if !valid(state) {
        return Err(Refusal::StateNotValid);
    }
    let failed = fault_byte(state.channels) & !state.registers.mask1;
    if failed == 0 {
        return Ok(None);
    }
    Ok(Some(Failed {
        count: failed.count_ones(),
        lowest: failed.trailing_zeros() + 1,
    }))
}
