// Any of the calls that are handed a state, as a value: what takes calls from a list or a line makes them here.
#![tactic(auto)]

ghost use Rattle.std.specs.Prelude.{◌≡◌, IfOk};
ghost use Rattle.std.specs.Option.{is_some};
ghost use Rattle.rules.specs.Make.{is_read, made, made_by};

use rules::{Call, Made, Refusal, State};

// Makes a call, and gives the byte of a read, and the state.
#[tactic(auto, unfolding(rules::specs::Make::made))]
pub fn make(state: State, call: Call) -> Result<Made, Refusal>
    ensures answered { made_by state result ≡ made state call }
    ensures byte { IfOk result (λ made. is_some made.byte ≡ is_read call) }
{
    let left = match call {
        Call::Write(address, byte) => write::write(state, address, byte)?,
        Call::Read(address) => {
            let read = read::read(state, address)?;
            return Ok(Made {
                byte: Some(read.byte),
                state: read.state,
            });
        }
        Call::Ticks(ticks) => ticks::pass_ticks(state, ticks)?,
        Call::Tachometer(channel, count) => tachometer::take_result(state, channel, count)?,
        Call::Pin(high) => pin::set_pin(state, high)?,
        Call::WriteWord(address, word) => write_word::write_word(state, address, word)?,
        Call::Pulse(channel) => pulse::take_pulse(state, channel)?,
    };
    Ok(Made {
        byte: None,
        state: left,
    })
}
