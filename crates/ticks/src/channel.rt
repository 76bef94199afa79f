// Many ticks of one channel. Clocks wrap as the box's does: a period divides their range, so the multiples are the same.
ghost use Rattle.std.specs.Prelude.{◌≡◌, ◌^◌, ◌<◌, ◌≤◌, false};
ghost use Rattle.rules.specs.Tick.{period_of, spin_up_due};
ghost use Rattle.laws.proofs.Ramp.{approach};
ghost use Rattle.laws.proofs.ChannelTicks.{channel_ticks};

use device::codes::{period_shift, spin_ticks};
use device::duty::wanted;
use registers::fields::{asymmetric, rate_code, spin_code};
use rules::Channel;

#[tactic(auto, unfolding(rules::specs::Tick::spin_up_due))]
fn spin_up_due(channel: Channel) -> bool
    ensures { result ≡ spin_up_due channel }
{
    (channel.ramp == 0) & (0 < wanted(channel)) & (0 < spin_code(channel.config))
}

// The power of two that a channel's period is.
fn shift_of(channel: Channel) -> u32
    ensures { (2 ^ result ≡ period_of channel) × (result ≤ 7) }
{
    let falling = wanted(channel) < channel.ramp;
    period_shift(
        rate_code(channel.dynamics),
        asymmetric(channel.dynamics) & falling,
    )
}

#[tactic(auto, unfolding(laws::proofs::Ramp::approach))]
fn approach(x: u16, goal: u16, steps: u64) -> u16
    ensures { result ≡ approach x goal steps }
{
    let from = u64::from(x);
    let to = u64::from(goal);
    let reached = if x <= goal {
        from.saturating_add(steps).min(to)
    } else {
        from.saturating_sub(steps).max(to)
    };
    reached as u16
}

// A channel whose spin-up neither runs nor is due.
fn ramp(channel: &mut Channel, clock: u32, ticks: u32)
    requires { (channel.old.spin ≡ 0) × (spin_up_due channel.old ≡ false) × (0 < ticks) }
    ensures { channel.new ≡ channel_ticks false ticks clock channel.old }
{
    let goal = wanted(*channel);
    if rate_code(channel.dynamics) == 0 {
        channel.ramp = goal;
        return;
    }
    let shift = shift_of(*channel);
    let before = u64::from(clock);
    let steps = ((before + u64::from(ticks)) >> shift) - (before >> shift);
    channel.ramp = approach(channel.ramp, goal, steps);
}

// A channel whose spin-up does not run, and may be due: then one tick starts it.
fn start_or_ramp(channel: &mut Channel, clock: u32, ticks: u32)
    requires { channel.old.spin ≡ 0 }
    ensures { channel.new ≡ channel_ticks false ticks clock channel.old }
{
    if ticks == 0 {
        return;
    }
    if !spin_up_due(*channel) {
        ramp(channel, clock, ticks);
        return;
    }
    let time = spin_ticks(spin_code(channel.config));
    let left = ticks - 1;
    channel.ramp = 511;
    channel.pulses = 0;
    if left <= u32::from(time) {
        channel.spin = time - left as u16;
        return;
    }
    ramp(
        channel,
        clock.wrapping_add(1 + u32::from(time)),
        left - u32::from(time),
    );
}

// Any channel that no override holds. With no spin-up time left no pulses are counted, so clearing both is right where none runs too.
pub fn pass(channel: &mut Channel, clock: u32, ticks: u32)
    requires { channel.old.pulses ≤ channel.old.spin }
    ensures { channel.new ≡ channel_ticks false ticks clock channel.old }
{
    let spin = u32::from(channel.spin);
    if ticks < spin {
        channel.spin -= ticks as u16;
        return;
    }
    channel.spin = 0;
    channel.pulses = 0;
    start_or_ramp(channel, clock.wrapping_add(spin), ticks - spin);
}
