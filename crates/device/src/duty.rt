// Which duty comes out of a channel.
ghost use Rattle.std.specs.Prelude.{◌≡◌};
ghost use Rattle.rules.specs.Basics.{some};
ghost use Rattle.rules.specs.Tick.{wanted, overridden};
ghost use Rattle.rules.specs.Duty.{fault_byte, conditions_of, failed_fan, override_by, override_of, own_duty, output_duty};

use registers::fields::{failed_fan_option, monitor_only, standby};
use rules::{Channel, Conditions, State};

// 11h: bit 0 for the first channel to bit 5 for the last.
pub fn fault_byte(channels: [Channel; 6]) -> u8
    ensures { result ≡ fault_byte channels }
{
    channels
        .iter()
        .rev()
        .fold(0, |byte, channel| (byte << 1) + u8::from(channel.fault))
}

fn some_fault(channels: [Channel; 6]) -> bool
    ensures { result ≡ some (λ ch. ch.fault) channels }
{
    channels.iter().any(|channel| channel.fault)
}

// What the overrides of all channels depend on, apart from the channel, which goes beside it from function to function: worked out once a call.
#[tactic(auto, unfolding(rules::specs::Duty::conditions_of))]
pub fn conditions(state: State) -> Conditions
    ensures { result ≡ conditions_of state }
{
    Conditions {
        pin: state.pin,
        standby: standby(state.registers.control),
        expired: state.timer.expired,
        option: failed_fan_option(state.registers.options),
        faulty: some_fault(state.channels),
    }
}

fn failed_fan(option: u8, fault: bool, faulty: bool) -> Option<u16>
    ensures { result ≡ failed_fan option fault faulty }
{
    match option {
        0 if fault => Some(0),
        2 if fault => Some(511),
        3 if faulty => Some(511),
        _ => None,
    }
}

// The override on a channel that is monitor only or not and has its fault bit set or not.
#[tactic(auto, unfolding(rules::specs::Duty::override_by))]
pub fn override_by(conditions: Conditions, monitor: bool, fault: bool) -> Option<u16>
    ensures { result ≡ override_by conditions monitor fault }
{
    let standby = conditions.standby;
    let expired = conditions.expired;
    if monitor {
        return Some(0);
    }
    if !conditions.pin {
        return Some(511);
    }
    if standby {
        return Some(0);
    }
    if expired {
        return Some(511);
    }
    failed_fan(conditions.option, fault, conditions.faulty)
}

// The override in force on a channel, if there is one.
pub fn override_of(conditions: Conditions, channel: Channel) -> Option<u16>
    ensures { result ≡ override_of conditions channel }
{
    override_by(conditions, monitor_only(channel.config), channel.fault)
}

// Whether an override is in force on a channel.
pub fn overridden(conditions: Conditions, channel: Channel) -> bool
    ensures { result ≡ overridden conditions channel }
{
    override_of(conditions, channel).is_some()
}

// A channel's duty where no override is in force.
fn own_duty(channel: Channel) -> u16
    ensures { result ≡ own_duty channel }
{
    if 0 < channel.spin { 511 } else { channel.ramp }
}

// The duty that comes out of a channel.
#[tactic(auto, unfolding(rules::specs::Duty::output_duty))]
pub fn output_duty(conditions: Conditions, channel: Channel) -> u16
    ensures { result ≡ output_duty conditions channel }
{
    override_of(conditions, channel).unwrap_or(own_duty(channel))
}

// The duty that a channel ramps to.
#[tactic(auto, unfolding(rules::specs::Tick::wanted))]
pub fn wanted(channel: Channel) -> u16
    ensures { result ≡ wanted channel }
{
    channel.target
}
