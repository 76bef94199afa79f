// The call that reports a pulse of a tachometer.
#![tactic(auto)]

ghost use Rattle.std.specs.Prelude.{◌≡◌};
ghost use Rattle.rules.specs.Calls.{answer_by};
ghost use Rattle.rules.specs.Pulse.{pulsed, with_pulse, pulse_of};

use device::codes::ends_early;
use device::valid::valid;
use rules::{Channel, ChannelIndex, Refusal, State};

// Two pulses show that the fan turns: the first within a spin-up is counted, and the second ends it.
#[tactic(auto, unfolding(rules::specs::Pulse::pulsed))]
fn pulsed(early: bool, channel: Channel) -> Channel
    ensures { result ≡ pulsed early channel }
{
    if !(early & (0 < channel.spin)) {
        return channel;
    }
    if channel.pulses == 0 {
        return Channel {
            pulses: 1,
            ..channel
        };
    }
    Channel {
        spin: 0,
        pulses: 0,
        ..channel
    }
}

fn with_pulse(state: State, i: ChannelIndex) -> State
    ensures { result ≡ with_pulse state i }
{
    let early = ends_early(state.start.modification);
    let mut next = state;
    let channel = &mut next.channels[i.get()];
    *channel = pulsed(early, *channel);
    next
}

// A pulse of the tachometer of channel 1 to 6, enabled or not. It is no access to a register, so the watchdog is not fed.
#[tactic(auto, unfolding(rules::specs::Pulse::pulse_of))]
pub fn take_pulse(state: State, channel: u32) -> Result<State, Refusal>
    ensures { answer_by state result ≡ pulse_of state channel }
{
    if !valid(state) {
        return Err(Refusal::StateNotValid);
    }
    let i = ChannelIndex::numbered(channel).ok_or(Refusal::NoSuchChannel)?;
    Ok(with_pulse(state, i))
}
