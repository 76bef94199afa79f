// The call read.
#![tactic(auto)]

ghost use Rattle.std.specs.Prelude.{◌≡◌, if◌then◌else◌};
ghost use Rattle.rules.specs.Map.{is_carried};
ghost use Rattle.rules.specs.Calls.{read_answer_by};
ghost use Rattle.rules.specs.Read.{box_byte, channel_byte, target_word, status_byte, place_byte, after_read, read_of};

use device::duty::{conditions, fault_byte, output_duty};
use device::valid::valid;
use registers::access::accessed;
use registers::kept::control_byte;
use registers::map::place_at;
use rules::{
    BoxRegister, ByteRead, Channel, ChannelRegister, Place, Refusal, State, StatusRegister, Timer,
    WordRegister,
};
use words::{count_word, duty_word, output_word, word_byte};

#[tactic(auto, unfolding(rules::specs::Read::box_byte))]
fn box_byte(state: State, register: BoxRegister) -> u8
    ensures { result ≡ box_byte state register }
{
    match register {
        BoxRegister::Control => control_byte(state.registers.control, state.timer.status),
        BoxRegister::Frequency => state.registers.frequency,
        BoxRegister::Mask2 => state.registers.mask2,
        BoxRegister::Mask1 => state.registers.mask1,
        BoxRegister::Options => state.registers.options,
    }
}

#[tactic(auto, unfolding(rules::specs::Read::channel_byte))]
fn channel_byte(channel: Channel, register: ChannelRegister) -> u8
    ensures { result ≡ channel_byte channel register }
{
    match register {
        ChannelRegister::Config => channel.config,
        ChannelRegister::Dynamics => channel.dynamics,
        ChannelRegister::Window => channel.window,
    }
}

#[tactic(auto, unfolding(rules::specs::Read::target_word))]
fn target_word(channel: Channel, register: WordRegister) -> u16
    ensures { result ≡ target_word channel register }
{
    match register {
        WordRegister::Target => duty_word(channel.target),
        WordRegister::TargetCount => count_word(channel.target_count),
    }
}

#[tactic(auto, unfolding(rules::specs::Read::status_byte))]
fn status_byte(state: State, register: StatusRegister) -> u8
    ensures { result ≡ status_byte state register }
{
    match register {
        StatusRegister::Faults2 => 0,
        StatusRegister::Faults1 => fault_byte(state.channels),
        StatusRegister::Count(i, low) => word_byte(count_word(state.channels[i.get()].count), low),
        StatusRegister::OtherCount(low) => word_byte(0xFFE0, low),
        StatusRegister::Output(i, low) => {
            let duty = output_duty(conditions(state), state.channels[i.get()]);
            word_byte(output_word(duty), low)
        }
    }
}

fn after_read(state: State, address: u32) -> State
    ensures { result ≡ after_read state address }
{
    let timer = Timer {
        status: state.timer.status & (address != 0x00),
        ..state.timer
    };
    accessed(State { timer, ..state })
}

// The byte that a place reads, if anything stands there.
#[tactic(auto, unfolding(rules::specs::Read::place_byte))]
fn place_byte(state: State, place: Place) -> Option<u8>
    ensures { result ≡ (if is_carried place then Some (place_byte state place) else None) }
{
    match place {
        Place::Absent => None,
        Place::ReadOnly(register) => Some(status_byte(state, register)),
        Place::Shared(register) => Some(box_byte(state, register)),
        Place::Own(register, i) => Some(channel_byte(state.channels[i.get()], register)),
        Place::OwnWord(register, i, low) => {
            let word = target_word(state.channels[i.get()], register);
            Some(word_byte(word, low))
        }
    }
}

// The byte at an address, from the state before the read.
#[tactic(auto, unfolding(rules::specs::Read::read_of, rules::specs::Read::read_at))]
pub fn read(state: State, address: u32) -> Result<ByteRead, Refusal>
    ensures { read_answer_by state result ≡ read_of state address }
{
    if !valid(state) {
        return Err(Refusal::StateNotValid);
    }
    let byte = place_byte(state, place_at(address)).ok_or(Refusal::NotCarried)?;
    Ok(ByteRead {
        byte,
        state: after_read(state, address),
    })
}
