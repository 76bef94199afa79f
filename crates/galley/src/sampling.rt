// A sample of the temperature, and the target duties that it writes.
ghost use Rattle.std.specs.Prelude.{◌≡◌, ◌+◌, ◌*◌, ◌<◌, true};
ghost use Rattle.rules.specs.Valid.{valid_of};
ghost use Rattle.rules.specs.WriteWord.{write_word_of};
ghost use Rattle.rules.specs.Make.{after_each, targets};
ghost use Rattle.galley_rules.specs.Sample.{calls_from, sample_of};
ghost use Rattle.galley_rules.specs.Refusals.{sample_by};

use galley_rows::tables::{Tables, row_duty};
use galley_rows::temperature::{is_above, row_after, taken};
use galley_rows::valid::valid;
use galley_rules::{Galley, GalleyRefusal, Sample};
use rules::{ChannelIndex, State, WordRegister};
use write_word::write_own;

// Writes a word to the target of a channel, as the call does at its address: no such write is refused where the state is valid. A function
// apart: inside `drive` a sample that writes nothing takes 136 instructions more.
#[inline(never)]
fn write_target(state: State, i: usize, word: u16) -> State
    requires { (valid_of state ≡ true) × (i < 6) }
    ensures { result ≡ (write_word_of state (0x40 + 2 * i) word).state }
{
    let channel = ChannelIndex::new(i).unwrap();
    write_own(state, word, WordRegister::Target, channel)
}

// Writes a duty to those of the six targets that differ, from channel 1 up, a word each. The sample has tested the state, and no write
// makes it invalid, so none tests it again.
fn drive(mut state: State, duty: u16) -> State
    requires { valid_of state ≡ true }
    ensures { result ≡ after_each state (calls_from duty 0 (targets state)) }
{
    let word = words::duty_word(duty);
    let targets = state.channels.map(|channel| channel.target);
    for (i, target) in targets.iter().enumerate() {
        let differs = *target != duty;
        if differs {
            state = write_target(state, i, word);
        }
    }
    state
}

// Takes a sample: the row follows it, ALERT and SHDN are told, and the controller's targets become the row's duty. Its callers lend two
// slices (docs/GALLEY.md), so `Tables` is made here.
#[tactic(auto, unfolding(galley_rules::specs::Sample::sample_of, galley_rules::specs::Sample::sample_refusal))]
pub fn sample(
    galley: Galley,
    state: State,
    temperature: i32,
    normal: &[u8],
    quiet: &[u8],
) -> Result<Sample, GalleyRefusal>
    ensures { sample_by galley state result ≡ sample_of galley state temperature normal.now quiet.now }
{
    if !valid(galley) || !device::valid::valid(state) {
        return Err(GalleyRefusal::StateNotValid);
    }
    let tables = Tables { normal, quiet };
    if !tables.are_whole() {
        return Err(GalleyRefusal::NoTable);
    }
    let held = taken(temperature)?;
    let row = row_after(galley.row, temperature, galley.hysteresis);
    let duty = row_duty(tables.in_force(galley.quiet), row);
    Ok(Sample {
        alert: is_above(temperature, galley.high),
        shutdown: is_above(temperature, galley.over),
        galley: Galley {
            row,
            temperature: held,
            ..galley
        },
        state: drive(state, duty),
    })
}
