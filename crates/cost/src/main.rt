// Makes many calls of one kind, for counting instructions: cost/count runs it. Two letters of input choose the state and the
// call.
#![tactic(auto)]

use counting::{Counted, Given, sum_of};
use rules::{Channel, Refusal, State};
use std::io;
use std::io::Read;
use ticks::pass_ticks;

const CALLS: u32 = 10000;

fn waiting() -> Result<State, Refusal> {
    start::start(0, 0, 511, 0x11, 0)
}

// Every fan at full duty.
fn settled() -> Result<State, Refusal> {
    pass_ticks(waiting()?, 100000)
}

// Every fan on its way to a lower duty.
fn ramping() -> Result<State, Refusal> {
    let state = settled()?;
    Ok(State {
        channels: state.channels.map(|channel| Channel {
            target: 100,
            ..channel
        }),
        ..state
    })
}

// Tachometer 6 enabled, unmasked, and failed.
fn failing(state: State) -> Result<State, Refusal> {
    let enabled = write::write(state, 0x07, 0x08)?;
    let unmasked = write::write(enabled, 0x13, 0x00)?;
    let first = tachometer::take_result(unmasked, 6, 2047)?;
    tachometer::take_result(first, 6, 2047)
}

// A state of a kind: settled, ramping, watchdog counting, faults judged, all six waiting to start, with spin-up due or not, or overridden
// (and anything else). None of these calls is refused.
fn state_of(kind: u8) -> Result<State, Refusal> {
    match kind {
        b's' => settled(),
        b'r' => ramping(),
        b'w' => write::write(ramping()?, 0x00, 0x22),
        b'f' => failing(settled()?),
        b'q' => waiting(),
        b'd' => start::start(0, 1, 300, 0x11, 0),
        _ => pin::set_pin(waiting()?, false),
    }
}

// A read of an output duty, the dearest one.
fn reading(state: State) -> Given {
    match read::read(state, 0x3B) {
        Ok(read) => Given {
            number: u32::from(read.byte),
            state: read.state,
        },
        Err(_) => Given { number: 0, state },
    }
}

fn asking(state: State) -> Given {
    let number = match fan_fail::fan_fail(state) {
        Ok(Some(failed)) => failed.count.wrapping_add(failed.lowest),
        _ => 0,
    };
    Given { number, state }
}

fn writing(state: State, address: u32, byte: u8) -> Given {
    Given::of(state, write::write(state, address, byte))
}

fn judging(state: State) -> Given {
    Given::of(state, tachometer::take_result(state, 6, 2047))
}

fn passing(state: State, ticks: u32) -> Given {
    Given::of(state, pass_ticks(state, ticks))
}

// 0, 1, just so many that six fans have started, or very many.
fn ticks_of(letter: u8) -> u32 {
    match letter {
        b'0' => 0,
        b'1' => 1,
        b'l' => 1284,
        _ => u32::MAX,
    }
}

// One call, by its letter: a read; a write of standby or of a window; a result; a FAN_FAIL query; and else ticks.
fn call(state: State, letter: u8) -> Given {
    match letter {
        b'R' => reading(state),
        b'S' => writing(state, 0x00, 0x80),
        b'W' => writing(state, 0x65, 0x12),
        b'T' => judging(state),
        b'F' => asking(state),
        _ => passing(state, ticks_of(letter)),
    }
}

#[derive(Clone, Copy)]
struct Lettered {
    letter: u8,
}

impl Counted for Lettered {
    fn call(&self, state: State) -> Given {
        call(state, self.letter)
    }
}

fn main(rt: HostRuntime) -> io::Result<()> {
    // A letter that the input lacks stays 0.
    let mut letters = [0; 2];
    let _ = rt.stdin().read_exact(&mut letters);
    let [kind, letter] = letters;
    let state = state_of(kind).unwrap_or_default();
    // One call first: with two places that call it, `call` stays a function that can be counted in.
    let first = call(state, letter);
    let sum = sum_of(state, CALLS, &Lettered { letter });
    println!(rt; "{}", sum.wrapping_add(u64::from(first.number)))
}
