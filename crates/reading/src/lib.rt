// The reading of clock and duties, which the paper calls the cabin reading.
#![tactic(auto)]

ghost use Rattle.std.specs.Prelude.{◌≡◌, map};
ghost use Rattle.rules.specs.Duty.{conditions_of, output_duty};
ghost use Rattle.rules.specs.Reading.{over512, share_of, reading_by, reading_of, ExactReading};

use device::duty::{conditions, output_duty};
use device::valid::valid;
use rules::{Reading, Refusal, State};

// A u32 is an f64 without loss, and so is its quotient by a power of two. The galley's eighths are of another type and definition (`over8`).
fn over_512(n: u32) -> f64
    ensures { result ≡ over512 n }
{
    f64::from(n) / 512.0
}

// A duty as a share of full speed, in 512ths.
fn share(duty: u16) -> u32
    ensures { result ≡ share_of duty }
{
    if duty == 511 {
        return 512;
    }
    u32::from(duty)
}

fn shares(state: State) -> [f64; 6]
    ensures { result ≡ map (λ ch. over512 (share_of (output_duty (conditions_of state) ch))) state.channels }
{
    let conditions = conditions(state);
    state.channels.map(|channel| over_512(share(output_duty(conditions, channel))))
}

// The clock in seconds and the six output duties as shares, each exact.
pub fn reading(state: State) -> Result<Reading, Refusal>
    ensures equal { reading_by state result ≡ reading_of state }
    ensures exact { ExactReading state (reading_by state result).reading }
{
    if !valid(state) {
        return Err(Refusal::StateNotValid);
    }
    Ok(Reading {
        seconds: over_512(state.timer.clock),
        shares: shares(state),
    })
}
