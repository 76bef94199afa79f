// Takes one sample many times, or makes the six writes of a sample that changes every target, for counting instructions: cost/count
// runs it. Two letters of input choose which, and are the bytes of the table. It stands apart from `cost`, so that no call there is laid
// out otherwise.
#![tactic(auto)]

use counting::{Counted, Given, sum_of};
use galley_rules::{Galley, TABLE_BYTES};
use rules::State;
use std::io;
use std::io::Read;

const CALLS: u32 = 10000;

// The targets at the beginning: the duty of the byte `a`.
const TARGET: u32 = 194;

fn sampling(galley: Galley, state: State, table: &[u8]) -> Given {
    match galley::sample(galley, state, 320, table, table) {
        Ok(sample) => Given {
            number: u32::from(sample.galley.row),
            state: sample.state,
        },
        Err(_) => Given {
            number: u32::from(galley.row),
            state,
        },
    }
}

// The same duty to each of the six targets.
fn writing(state: State, table: &[u8]) -> Given {
    let word = u16::from(table.first().copied().unwrap_or(0)) * 256;
    let mut next = state;
    for channel in 0..6 {
        next = write_word::write_word(next, 0x40 + 2 * channel, word).unwrap_or(next);
    }
    Given {
        number: 0,
        state: next,
    }
}

// One sample, or the writes that it makes, by the letter.
fn call(galley: Galley, state: State, letter: u8, table: &[u8]) -> Given {
    if letter == b's' {
        sampling(galley, state, table)
    } else {
        writing(state, table)
    }
}

#[derive(Clone, Copy)]
struct Lettered<'a> {
    galley: Galley,
    letter: u8,
    table: &'a [u8],
}

impl<'a> Counted for Lettered<'a> {
    fn call(&self, state: State) -> Given {
        call(self.galley, state, self.letter, self.table)
    }
}

fn main(rt: HostRuntime) -> io::Result<()> {
    // A letter that the input lacks stays 0.
    let mut letters = [0; 2];
    let _ = rt.stdin().read_exact(&mut letters);
    let [letter, byte] = letters;
    let table = [byte; TABLE_BYTES];
    let galley = galley::fresh(640, 720, false, false).unwrap_or_default();
    let state = start::start(1, 0, TARGET, 0x11, 0).unwrap_or_default();
    // One call first: with two places that call it, `call` stays a function that can be counted in.
    let first = call(galley, state, letter, &table);
    let lettered = Lettered {
        galley,
        letter,
        table: &table,
    };
    let sum = sum_of(state, CALLS, &lettered);
    println!(rt; "{}", sum.wrapping_add(u64::from(first.number)))
}
