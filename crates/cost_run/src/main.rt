// Makes 64 calls in one run of an order string, or the same calls one by one, many times, for counting instructions: cost/count
// runs it. A letter of input chooses which. It stands apart from `cost`, so that no call there is made from two places.
#![tactic(auto)]

use counting::{Counted, Given, sum_of};
use rules::{Call, State};
use std::io;
use std::io::Read;
use strings::Order;

const TIMES: u32 = 1000;

// Sixteen calls of every kind.
const LISTED: [Call; 16] = [
    Call::WriteWord(0x40, 0x6400),
    Call::Write(0x08, 0x50),
    Call::Write(0x02, 0x28),
    Call::Read(0x30),
    Call::Ticks(512),
    Call::Tachometer(1, 480),
    Call::Read(0x11),
    Call::Pin(true),
    Call::WriteWord(0x4A, 0xC800),
    Call::Read(0x3A),
    Call::Ticks(1),
    Call::Tachometer(6, 2047),
    Call::Pulse(1),
    Call::Write(0x13, 0x3E),
    Call::Ticks(65536),
    Call::Pin(false),
];

// Puts the calls four times over as a string: 64 records of 192 bytes.
fn put_64(string: &mut [u8]) {
    let mut at = 0;
    for call in LISTED.iter().cycle().take(64) {
        at = encode::encode(Order::from(*call), string, at);
    }
}

// The 64 records in one run.
fn running(state: State, string: &[u8]) -> Given {
    let mut answers = [0; 192];
    let ran = orders::run(state, string, 64, &mut answers);
    Given {
        number: ran.taken.wrapping_add(u32::from(answers[0])),
        state: ran.state,
    }
}

// The same calls, one by one.
fn one_by_one(state: State) -> Given {
    let mut given = Given { number: 0, state };
    for call in LISTED.iter().cycle().take(64) {
        if let Ok(made) = calls::make(given.state, *call) {
            given = Given {
                number: given.number.wrapping_add(u32::from(made.byte.unwrap_or(0))),
                state: made.state,
            };
        }
    }
    given
}

// The 64 calls, by the letter: a run, or one by one.
fn call(state: State, letter: u8, string: &[u8]) -> Given {
    if letter == b'r' {
        running(state, string)
    } else {
        one_by_one(state)
    }
}

#[derive(Clone, Copy)]
struct Lettered<'a> {
    letter: u8,
    string: &'a [u8],
}

impl<'a> Counted for Lettered<'a> {
    fn call(&self, state: State) -> Given {
        call(state, self.letter, self.string)
    }
}

fn main(rt: HostRuntime) -> io::Result<()> {
    // A letter that the input lacks stays 0.
    let mut letters = [0; 1];
    let _ = rt.stdin().read_exact(&mut letters);
    let [letter] = letters;
    let mut string = [0; 192];
    put_64(&mut string);
    let state = start::start(0, 0, 511, 0x11, 0).unwrap_or_default();
    // Once first: with two places that call it, `call` stays a function that can be counted in.
    let first = call(state, letter, &string);
    let lettered = Lettered {
        letter,
        string: &string,
    };
    let sum = sum_of(state, TIMES, &lettered);
    println!(rt; "{}", sum.wrapping_add(u64::from(first.number)))
}
