// The trials that the papers have run and not proved. Each line of output is a call, its refusal number and, of a read, the
// byte; the file stdout has what the papers say.
#![tactic(auto)]

use rules::{Call, Made, Refusal};
use std::io;

// A read and writes that are refused; words to an absent address, to a register that can only be read, to one of a byte, and to an odd address, and one
// that is accepted; a reset, which changes the target back; pulses of channels that there are not, and of one that there is.
const TRIALS: [(&str, Call); 16] = [
    ("read 0Eh", Call::Read(0x0E)),
    ("write 11h 00h", Call::Write(0x11, 0x00)),
    ("write 02h 80h", Call::Write(0x02, 0x80)),
    ("write 41h 85h", Call::Write(0x41, 0x85)),
    ("word 3Ch 6400h", Call::WriteWord(0x3C, 0x6400)),
    ("word 18h 6400h", Call::WriteWord(0x18, 0x6400)),
    ("word 02h 6400h", Call::WriteWord(0x02, 0x6400)),
    ("word 41h 6400h", Call::WriteWord(0x41, 0x6400)),
    ("word 40h 6400h", Call::WriteWord(0x40, 0x6400)),
    ("read 40h", Call::Read(0x40)),
    ("write 00h C0h", Call::Write(0x00, 0xC0)),
    ("read 00h", Call::Read(0x00)),
    ("read 40h", Call::Read(0x40)),
    ("pulse 0", Call::Pulse(0)),
    ("pulse 7", Call::Pulse(7)),
    ("pulse 6", Call::Pulse(6)),
];

// The number of what a call answers: 0 stands for accepted.
fn number<T>(answer: &Result<T, Refusal>) -> u8 {
    match answer {
        Ok(_) => 0,
        Err(refusal) => refusal.number(),
    }
}

fn main(rt: HostRuntime) -> io::Result<()> {
    // Watchdog code 1, spin-up code 1, power-on target 300, frequency byte 11h, a modification that there is not, and B.
    let refused = start::start(1, 1, 300, 0x11, 2);
    println!(rt; "start 1 1 300 17 2: {}", number(&refused))?;
    let begun = start::start(1, 1, 300, 0x11, 1);
    println!(rt; "start 1 1 300 17 1: {}", number(&begun))?;
    let mut state = begun.unwrap_or_default();
    for (name, call) in TRIALS {
        let made = calls::make(state, call);
        print!(rt; "{name}: {}", number(&made))?;
        let given = made.unwrap_or(Made { byte: None, state });
        if let Call::Read(_) = call {
            print!(rt; " {}", given.byte.unwrap_or(0))?;
        }
        println!(rt)?;
        state = given.state;
    }
    Ok(())
}
