// Works out one speed many times, for counting instructions: cost/count runs it. Five letters of input spell it. It stands apart from
// `cost`, so that no call there is laid out otherwise.
#![tactic(auto)]

use counting::six_bits;
use rules::Speed;
use std::io;
use std::io::Read;

const CALLS: u32 = 10000;

fn speed_of(range: u32, pulses: u32, count: u32) -> u32 {
    match speed::speed(range, pulses, count) {
        Ok(Speed::Rpm(speed)) => speed,
        _ => 0,
    }
}

// The letters spell range code, pulses, the count in two, and which bits of the turn are joined to the count: none, but the compiler
// cannot tell, and has each speed worked out.
fn sum_of_speeds(letters: [u8; 5]) -> u64 {
    let [range, pulses, high, low, joined] = letters.map(six_bits);
    let count = (high << 6) | low;
    let mut sum: u64 = 0;
    for turn in 0..CALLS {
        let speed = speed_of(range, pulses, count | (turn & joined));
        sum = sum.wrapping_add(u64::from(speed));
    }
    sum
}

fn main(rt: HostRuntime) -> io::Result<()> {
    // A letter that the input lacks stays 0.
    let mut letters = [0; 5];
    let _ = rt.stdin().read_exact(&mut letters);
    println!(rt; "{}", sum_of_speeds(letters))
}
