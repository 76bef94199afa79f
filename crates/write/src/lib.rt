// The call write, of a byte.
#![tactic(auto)]

ghost use Rattle.std.specs.Prelude.{◌≡◌, map};
ghost use Rattle.rules.specs.declared.ChannelRegister.TheVariants.{Config};
ghost use Rattle.rules.specs.declared.Place.TheVariants.{Own};
ghost use Rattle.rules.specs.Calls.{answer_by, unless_refused, accessed};
ghost use Rattle.rules.specs.Write.{stopped, channel_written, stored, box_written, own_written, written, write_refusal, write_of};

use device::fresh::as_at_start;
use device::valid::valid;
use registers::access::accessed;
use registers::fields::{monitor_only, standby};
use registers::kept::{config_refused, control_kept, dynamics_kept, mask_kept, options_kept};
use registers::map::place_at;
use rules::{
    BoxRegister, Channel, ChannelIndex, ChannelRegister, Place, Refusal, Registers, State,
};

fn stopped(channel: Channel) -> Channel
    ensures { result ≡ stopped channel }
{
    Channel {
        ramp: 0,
        spin: 0,
        pulses: 0,
        ..channel
    }
}

fn all_stopped(channels: [Channel; 6]) -> [Channel; 6]
    ensures { result ≡ map stopped channels }
{
    channels.map(stopped)
}

#[tactic(auto, unfolding(rules::specs::Write::channel_written))]
fn configured(channel: Channel, byte: u8) -> Channel
    ensures { result ≡ channel_written channel byte Config }
{
    let next = Channel {
        config: byte,
        ..channel
    };
    if monitor_only(byte) {
        stopped(next)
    } else {
        next
    }
}

#[tactic(auto, unfolding(rules::specs::Write::channel_written))]
fn channel_written(channel: Channel, byte: u8, register: ChannelRegister) -> Channel
    ensures { result ≡ channel_written channel byte register }
{
    match register {
        ChannelRegister::Config => configured(channel, byte),
        ChannelRegister::Dynamics => Channel {
            dynamics: dynamics_kept(byte),
            ..channel
        },
        ChannelRegister::Window => Channel {
            window: byte,
            ..channel
        },
    }
}

// The byte goes into its register, less the bits that it does not keep.
fn stored(registers: Registers, byte: u8, register: BoxRegister) -> Registers
    ensures { result ≡ stored registers byte register }
{
    match register {
        BoxRegister::Control => Registers {
            control: control_kept(byte),
            ..registers
        },
        BoxRegister::Frequency => Registers {
            frequency: byte,
            ..registers
        },
        BoxRegister::Mask2 => Registers {
            mask2: mask_kept(byte),
            ..registers
        },
        BoxRegister::Mask1 => Registers {
            mask1: mask_kept(byte),
            ..registers
        },
        BoxRegister::Options => Registers {
            options: options_kept(byte),
            ..registers
        },
    }
}

// A reset comes before standby.
#[tactic(auto, unfolding(rules::specs::Write::box_written))]
fn box_written(state: State, byte: u8, register: BoxRegister) -> State
    ensures { result ≡ box_written state byte register }
{
    let next = State {
        registers: stored(state.registers, byte, register),
        ..state
    };
    match register {
        BoxRegister::Control if (byte >> 6) & 1 == 1 => {
            as_at_start(state.start, state.timer.clock, state.pin)
        }
        BoxRegister::Control if standby(byte) => State {
            channels: all_stopped(state.channels),
            ..next
        },
        _ => next,
    }
}

fn own_written(state: State, byte: u8, register: ChannelRegister, i: ChannelIndex) -> State
    ensures { result ≡ own_written state byte register i }
{
    let mut channels = state.channels;
    channels[i.get()] = channel_written(channels[i.get()], byte, register);
    State { channels, ..state }
}

// A byte goes to a register of one channel, or is refused there.
#[tactic(auto, unfolding(rules::specs::Write::written, rules::specs::Write::write_refusal))]
fn own_at(
    state: State,
    byte: u8,
    register: ChannelRegister,
    i: ChannelIndex,
) -> Result<State, Refusal>
    ensures { answer_by state result ≡ unless_refused (write_refusal (Own register i) byte) state (written (accessed state) byte (Own register i)) }
{
    match register {
        ChannelRegister::Config if config_refused(byte) => Err(Refusal::ConfigNotAllowed),
        _ => Ok(own_written(accessed(state), byte, register, i)),
    }
}

// A byte goes to what stands at an address, or is refused there.
#[tactic(auto, unfolding(rules::specs::Write::written, rules::specs::Write::write_refusal))]
fn byte_at(state: State, byte: u8, place: Place) -> Result<State, Refusal>
    ensures { answer_by state result ≡ unless_refused (write_refusal place byte) state (written (accessed state) byte place) }
{
    match place {
        Place::Absent => Err(Refusal::NotCarried),
        Place::ReadOnly(_) => Err(Refusal::ReadOnly),
        Place::OwnWord(_, _, _) => Err(Refusal::WrongWidth),
        Place::Own(register, i) => own_at(state, byte, register, i),
        Place::Shared(register) => Ok(box_written(accessed(state), byte, register)),
    }
}

// A byte goes to an address.
#[tactic(auto, unfolding(rules::specs::Write::write_of))]
pub fn write(state: State, address: u32, byte: u8) -> Result<State, Refusal>
    ensures { answer_by state result ≡ write_of state address byte }
{
    if !valid(state) {
        return Err(Refusal::StateNotValid);
    }
    byte_at(state, byte, place_at(address))
}
