// Reports one pulse many times, for counting instructions: cost/count runs it. A letter of input chooses the state. It stands apart from
// `cost`, so that no call there is laid out otherwise.
#![tactic(auto)]

use counting::{Counted, Given, sum_of};
use rules::{Refusal, State};
use std::io;
use std::io::Read;
use ticks::pass_ticks;

const CALLS: u32 = 10000;

#[derive(Clone, Copy)]
struct Pulse;

impl Counted for Pulse {
    fn call(&self, state: State) -> Given {
        Given::of(state, pulse::take_pulse(state, 6))
    }
}

// Six spin-ups that run: with no start delay all begin in one tick.
fn running(modification: u32) -> Result<State, Refusal> {
    let mut state = start::start(0, 1, 300, 0x11, modification)?;
    state.registers.options = 0x05;
    pass_ticks(state, 1)
}

// They run in a box of modification A, or of B with no pulse counted, or (and with any other letter) with one.
fn state_of(letter: u8) -> Result<State, Refusal> {
    match letter {
        b'a' => running(0),
        b'b' => running(1),
        _ => Ok(Pulse.call(running(1)?).state),
    }
}

fn main(rt: HostRuntime) -> io::Result<()> {
    // A letter that the input lacks stays 0.
    let mut letters = [0; 1];
    let _ = rt.stdin().read_exact(&mut letters);
    let [letter] = letters;
    let state = state_of(letter).unwrap_or_default();
    println!(rt; "{}", sum_of(state, CALLS, &Pulse))
}
