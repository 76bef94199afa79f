// The speed calculation: revolutions a minute from a tachometer count, or that the fan has stopped or is too fast for its range.
#![tactic(auto)]

ghost use Rattle.std.specs.Prelude.{◌≡◌, ◌<◌, ◌/◌};
ghost use Rattle.rules.specs.Speed.{speed_refused, speed_of, SpeedTold};

use rules::{Refusal, Speed};

const RANGES: [u32; 8] = [1, 2, 4, 8, 16, 32, 32, 32];

// The bits of a quotient, and so the turns of `divide`. The largest dividend is 491,520 × 32 = 15,728,640, which is below
// 2^24 = 16,777,216, and a divisor is at least 1, so no quotient is larger than that.
const QUOTIENT_BITS: u32 = 24;

// Long division in base two, by shifts and subtraction, for a processor that has no divide instruction. Each turn gives one bit of the
// quotient, from the top: 24 turns, whatever the numbers. The bit is 1 where the divisor, moved up to it, goes into what is left of the
// dividend; that is asked with what is left moved down, since the divisor could lose bits on the way up.
fn divide(dividend: u32, divisor: u32) -> u32
    requires { (dividend < 16777216) × (0 < divisor) }
    ensures { result ≡ dividend / divisor }
{
    let mut quotient = 0;
    let mut rest = dividend;
    for bit in (0..QUOTIENT_BITS).rev() {
        if divisor <= rest >> bit {
            rest -= divisor << bit;
            quotient += 1 << bit;
        }
    }
    quotient
}

#[tactic(auto, unfolding(rules::specs::Speed::speed_refused))]
fn refused(range: u32, pulses: u32, count: u32) -> bool
    ensures { result ≡ speed_refused range pulses count }
{
    (7 < range) | !(1..=4).contains(&pulses) | (2047 < count)
}

// The speed of a fan with so many pulses a revolution, by its channel's range code and its tachometer count.
#[tactic(auto, unfolding(rules::specs::Speed::speed_of, rules::specs::Speed::speed_refused, rules::specs::Speed::speed_range))]
pub fn speed(range: u32, pulses: u32, count: u32) -> Result<Speed, Refusal>
    ensures equal { result ≡ speed_of range pulses count }
    ensures told { SpeedTold range pulses count result }
{
    if refused(range, pulses, count) {
        return Err(Refusal::SpeedOutOfRange);
    }
    match count {
        2047 => Ok(Speed::Stopped),
        0 => Ok(Speed::TooFast),
        _ => Ok(Speed::Rpm(divide(491520 * RANGES[range as usize], pulses * count))),
    }
}
