// Whether a state is valid: the test of refusal 1.
ghost use Rattle.std.specs.Prelude.{◌≡◌};
ghost use Rattle.rules.specs.Basics.{every};
ghost use Rattle.rules.specs.Valid.{valid_settings, valid_results, valid_motion, valid_channel, valid_pulses, valid_registers, valid_start, valid_watchdog, valid_timer, valid_of};
ghost use Rattle.laws.proofs.Valid.{none_counted};

use crate::codes::{ends_early, watchdog_limit};
use registers::fields::{monitor_only, standby, watchdog_code};
use registers::kept::{config_refused, control_kept, dynamics_kept, mask_kept, options_kept};
use rules::{Channel, Registers, StartValues, State, Timer};

fn valid_settings(channel: Channel) -> bool
    ensures { result ≡ valid_settings channel }
{
    !config_refused(channel.config)
        & (dynamics_kept(channel.dynamics) == channel.dynamics)
        & (channel.target < 512)
        & (channel.target_count < 2048)
}

fn valid_results(channel: Channel) -> bool
    ensures { result ≡ valid_results channel }
{
    (channel.count < 2048) & (channel.queue <= 6)
}

// Fewer tests than the definition has: where a spin-up runs the ramp value is 511, so a channel that stands still has none.
fn valid_motion(still: bool, channel: Channel) -> bool
    ensures { result ≡ valid_motion still channel }
{
    (channel.ramp < 512)
        & (!still | (channel.ramp == 0))
        & ((channel.spin == 0) | ((channel.ramp == 511) & (channel.spin <= 1024)))
}

#[tactic(auto, unfolding(rules::specs::Valid::valid_channel))]
fn valid_channel(in_standby: bool, channel: Channel) -> bool
    ensures { result ≡ valid_channel in_standby channel }
{
    let still = in_standby | monitor_only(channel.config);
    valid_settings(channel) & valid_results(channel) & valid_motion(still, channel)
}

fn valid_channels(in_standby: bool, channels: [Channel; 6]) -> bool
    ensures { result ≡ every (valid_channel in_standby) channels }
{
    channels
        .iter()
        .all(|channel| valid_channel(in_standby, *channel))
}

// No channel has a pulse counted.
fn none_counted(channels: [Channel; 6]) -> bool
    ensures { result ≡ every none_counted channels }
{
    channels.iter().all(|channel| channel.pulses == 0)
}

#[tactic(auto, unfolding(rules::specs::Valid::valid_pulses))]
fn valid_count(early: bool, channel: Channel) -> bool
    ensures { result ≡ valid_pulses early channel }
{
    channel.pulses <= u8::from(early & (0 < channel.spin))
}

fn valid_counts(early: bool, channels: [Channel; 6]) -> bool
    ensures { result ≡ every (valid_pulses early) channels }
{
    channels.iter().all(|channel| valid_count(early, *channel))
}

// Pulses are counted for moments only, so one look at all six is mostly enough.
fn valid_pulses(early: bool, channels: [Channel; 6]) -> bool
    ensures { result ≡ every (valid_pulses early) channels }
{
    none_counted(channels) || valid_counts(early, channels)
}

#[tactic(auto, unfolding(rules::specs::Valid::valid_registers))]
fn valid_registers(registers: Registers) -> bool
    ensures { result ≡ valid_registers registers }
{
    (control_kept(registers.control) == registers.control)
        & (mask_kept(registers.mask2) == registers.mask2)
        & (mask_kept(registers.mask1) == registers.mask1)
        & (options_kept(registers.options) == registers.options)
}

// Whether the pin-set values are in range. Start refuses larger numbers than these types hold, so it tests them itself.
#[tactic(auto, unfolding(rules::specs::Valid::valid_start))]
fn valid_start(start: StartValues) -> bool
    ensures { result ≡ valid_start start }
{
    (start.watchdog < 4) & (start.spinup < 4) & (start.target < 512) & (start.modification < 2)
}

fn valid_watchdog(code: u8, timer: Timer) -> bool
    ensures { result ≡ valid_watchdog code timer.idle timer.expired }
{
    if code == 0 {
        return (timer.idle == 0) & !timer.expired;
    }
    let limit = watchdog_limit(code);
    if timer.expired {
        return timer.idle == limit;
    }
    timer.idle < limit
}

#[tactic(auto, unfolding(rules::specs::Valid::valid_timer))]
fn valid_timer(code: u8, timer: Timer) -> bool
    ensures { result ≡ valid_timer code timer }
{
    valid_watchdog(code, timer) & (timer.wait <= 2048)
}

#[tactic(auto, unfolding(rules::specs::Valid::valid_of))]
// Whether a call would take the state. Each call tests it by an `if` of its own, since a refusal is another type for a run and for the
// galley. The pulses come first: named last they take 14 instructions more.
pub fn valid(state: State) -> bool
    ensures { result ≡ valid_of state }
{
    let control = state.registers.control;
    let pulses = valid_pulses(ends_early(state.start.modification), state.channels);
    valid_registers(state.registers)
        & valid_start(state.start)
        & valid_timer(watchdog_code(control), state.timer)
        & valid_channels(standby(control), state.channels)
        & pulses
}
