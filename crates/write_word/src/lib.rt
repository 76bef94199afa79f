// The call that writes a word: a channel's target duty or target count in one go.
#![tactic(auto)]

ghost use Rattle.std.specs.Prelude.{◌≡◌};
ghost use Rattle.rules.specs.Calls.{answer_by, unless_refused, accessed};
ghost use Rattle.rules.specs.WriteWord.{target_written, own_word_written, word_written, word_refusal, write_word_of};

use device::valid::valid;
use registers::access::accessed;
use registers::map::place_at;
use rules::{Channel, ChannelIndex, Place, Refusal, State, WordRegister};
use words::{word_count, word_duty};

#[tactic(auto, unfolding(rules::specs::WriteWord::target_written))]
fn target_written(channel: Channel, word: u16, register: WordRegister) -> Channel
    ensures { result ≡ target_written channel word register }
{
    match register {
        WordRegister::Target => Channel {
            target: word_duty(word),
            queue: 0,
            fault: false,
            ..channel
        },
        WordRegister::TargetCount => Channel {
            target_count: word_count(word),
            ..channel
        },
    }
}

// Alike `own_written` of write, `with_result` of tachometer and `with_pulse` of pulse but for what is changed of the channel: one function
// for all would be handed that as a closure, and each of the four would be no shorter.
fn own_word_written(state: State, word: u16, register: WordRegister, i: ChannelIndex) -> State
    ensures { result ≡ own_word_written state word register i }
{
    let mut channels = state.channels;
    channels[i.get()] = target_written(channels[i.get()], word, register);
    State { channels, ..state }
}

// A word goes into a register of one channel, in one access: what `write_word` does once it has tested the state and found the place. For
// a caller that has tested the state itself and writes several words.
pub fn write_own(state: State, word: u16, register: WordRegister, i: ChannelIndex) -> State
    ensures { result ≡ own_word_written (accessed state) word register i }
{
    own_word_written(accessed(state), word, register, i)
}

// A word goes to what stands at an address, or is refused there.
#[tactic(auto, unfolding(rules::specs::WriteWord::word_written, rules::specs::WriteWord::word_refusal))]
fn word_at(state: State, word: u16, place: Place) -> Result<State, Refusal>
    ensures { answer_by state result ≡ unless_refused (word_refusal place) state (word_written (accessed state) word place) }
{
    match place {
        Place::Absent => Err(Refusal::NotCarried),
        Place::ReadOnly(_) => Err(Refusal::ReadOnly),
        Place::OwnWord(register, i, low) if !low => Ok(write_own(state, word, register, i)),
        Place::Shared(_) | Place::Own(_, _) | Place::OwnWord(_, _, _) => Err(Refusal::WrongWidth),
    }
}

// A word goes to an address. Alike `write` but for what is done at the place: one function for both would be no shorter.
#[tactic(auto, unfolding(rules::specs::WriteWord::write_word_of))]
pub fn write_word(state: State, address: u32, word: u16) -> Result<State, Refusal>
    ensures { answer_by state result ≡ write_word_of state address word }
{
    if !valid(state) {
        return Err(Refusal::StateNotValid);
    }
    word_at(state, word, place_at(address))
}
