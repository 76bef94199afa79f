// Makes every call of the library once, on numbers that its input spells, and prints what they give: cost/divides looks at its
// compiled code. As the numbers come from the input the compiler works no answer out beforehand, and as each state is handed on and
// what else is answered is printed it leaves nothing out but refusals, and what stands above the digits that are told (`unseen`).
#![tactic(auto)]

use counting::six_bits;
use galley_rules::{Sample, TABLE_BYTES};
use lent::front;
use records::reader::Reader;
use rules::{ByteRead, Call, Made, Reading, Refusal, Speed, State};
use std::io::Read;
use strings::{Found, Order, RunRefusal, StringRefusal};
use turns::Period;

const DIGITS: [u8; 16] = *b"0123456789ABCDEF";

fn digit(number: u64) -> u8 {
    DIGITS[(number % 16) as usize]
}

// A line with a number's four lowest digits in hex. They are made by hand since the standard library's printing of a number divides, which
// cost/divides would find. A write that fails is let go: the number of its error, which `main` would hand on, would be divided too.
fn tell(rt: &impl Print, what: &[u8], number: u64) {
    let [first, second, third, fourth] = [number >> 12, number >> 8, number >> 4, number].map(
        digit,
    );
    let _ = rt.write_all(what);
    let _ = rt.write_all(&[first, second, third, fourth, b'\n']);
}

// The calls that change the state, each from the one before. That none was refused is told by the sum in the end.
fn passed(letters: [u8; 18]) -> State {
    let state = start::start(
        six_bits(letters[0]),
        six_bits(letters[1]),
        six_bits(letters[2]),
        letters[3],
        six_bits(letters[8]),
    )
    .unwrap_or(start::zero_state());
    let state = write::write(state, six_bits(letters[4]), letters[5]).unwrap_or(state);
    let address = 0x40 + six_bits(letters[11]);
    let word = u16::from(letters[2] % 64) * 128;
    let state = write_word::write_word(state, address, word).unwrap_or(state);
    let state = ticks::pass_ticks(state, six_bits(letters[6])).unwrap_or(state);
    let spans = [six_bits(letters[6]), six_bits(letters[7])];
    ticks::pass_each(state, &spans).unwrap_or(state)
}

fn changed(rt: &impl Print, state: State, letters: [u8; 18]) -> State {
    let channel = six_bits(letters[8]);
    let state = pulse::take_pulse(state, channel).unwrap_or(state);
    let state = tachometer::take_result(state, channel, six_bits(letters[9]) << 5).unwrap_or(state);
    let state = pin::set_pin(state, letters[10] == b'A').unwrap_or(state);
    let read = read::read(state, six_bits(letters[4])).unwrap_or(ByteRead { byte: 0, state });
    tell(rt, b"read ", u64::from(read.byte));
    let made = calls::make(read.state, Call::Read(six_bits(letters[11]))).unwrap_or(Made {
        byte: None,
        state: read.state,
    });
    tell(rt, b"made ", u64::from(made.byte.unwrap_or(0)));
    made.state
}

// A digit for whether a number is so large.
fn at_least(number: f64, bound: f64) -> u64 {
    u64::from(bound <= number)
}

fn turns(speed: Result<Speed, Refusal>) -> u64 {
    match speed {
        Ok(Speed::Rpm(speed)) => u64::from(speed),
        _ => 0,
    }
}

// The queries, a digit for each of their numbers, and the speed of channel 1.
fn asked(rt: &impl Print, state: State, pulses: u32) {
    let failed = fan_fail::fan_fail(state).unwrap_or(None);
    let told = match failed {
        Some(failed) => 1 << 8 | u64::from(failed.count) << 4 | u64::from(failed.lowest),
        None => 0,
    };
    tell(rt, b"asserted, failed, lowest ", told);
    let cabin = reading::reading(state).unwrap_or(Reading {
        seconds: 0.0,
        shares: [0.0; 6],
    });
    let sum = cabin.shares.iter().fold(0.0, |sum, share| sum + share);
    let past = at_least(cabin.seconds, 0.25) << 4 | at_least(sum, 6.0);
    tell(rt, b"a quarter of a second, six at full speed ", past);
    let channel = state.channels[0];
    let range = registers::fields::range_code(channel.dynamics);
    let speed = speed::speed(u32::from(range), pulses, u32::from(channel.count));
    tell(rt, b"speed ", turns(speed));
}

// A number above the four digits that are told: what is printed stays as it is without it.
fn unseen(number: u8) -> u64 {
    u64::from(number) << 16
}

fn stopped_by(outcome: Result<(), RunRefusal>) -> u8 {
    match outcome {
        Ok(()) => 0,
        Err(refusal) => refusal.number(),
    }
}

// The power of two of a period, 0 where there is none.
fn power_of(shift: u8) -> u8 {
    match Period::new(shift) {
        Some(period) => period.get(),
        None => 0,
    }
}

// Where the record ends, 0 where there is none.
fn end_of(found: Result<Option<Found>, StringRefusal>) -> u64 {
    match found {
        Ok(Some(found)) => found.next as u64,
        _ => 0,
    }
}

// A write and a read as an order string, whose second record is read back, and which is run.
fn ran(rt: &impl Print, state: State, letters: [u8; 18]) -> State {
    let mut string = [0; 5];
    let write = Call::Write(six_bits(letters[4]), letters[5]);
    let first = encode::encode(Order::from(write), &mut string, 0);
    let read = Call::Read(six_bits(letters[11]));
    let end = encode::encode(Order::from(read), &mut string, first);
    let string = front(&string, end);
    tell(
        rt,
        b"record to ",
        end_of(Reader::open(string, 0).moved(first).next()),
    );
    let mut answers = [0; 5];
    let run = orders::run(state, string, six_bits(letters[12]), &mut answers);
    tell(
        rt,
        b"taken ",
        u64::from(run.taken) | unseen(stopped_by(run.outcome)),
    );
    let answered = if orders::is_read(read) { answers[0] } else { 0 };
    tell(rt, b"answered ", u64::from(answered));
    run.state
}

// A sample of a galley that is fresh, with one letter as all its tables' bytes; then a span of rows, and the temperature.
fn served(rt: &impl Print, state: State, letters: [u8; 18]) -> State {
    let table = [letters[17]; TABLE_BYTES];
    let galley = galley::fresh(
        i32::from(letters[14]),
        i32::from(letters[15]),
        letters[10] == b'A',
        letters[10] == b'B',
    )
    .unwrap_or(galley::zero_galley());
    let sample = galley::sample(galley, state, i32::from(letters[16]), &table, &table).unwrap_or(
        Sample {
            alert: false,
            shutdown: false,
            galley,
            state,
        },
    );
    let flags = u64::from(sample.alert) << 8 | u64::from(sample.shutdown) << 4;
    tell(
        rt,
        b"alert, shutdown, row ",
        flags | u64::from(sample.galley.row),
    );
    let first = six_bits(letters[11]);
    let end = six_bits(letters[9]);
    let refused = galley::span_refusal(sample.galley, first, end, &table, &table);
    let rows = galley::span_rows(sample.galley, first, end, &table, &table);
    let told = u64::from(refused) << 8 | rows.len() as u64;
    tell(rt, b"refused, rows ", told);
    let degrees = galley::degrees(sample.galley).unwrap_or(0.0);
    let past = at_least(degrees, 15.75) << 4 | at_least(degrees, 16.0);
    tell(rt, b"15.75 degrees, 16 degrees ", past);
    sample.state
}

// The sum of a state's numbers, once they have been to numbers and back.
fn sum_of(state: State) -> u64 {
    let numbers = numbers::numbers_of(state);
    numbers::numbers_of(numbers::state_of(&numbers))
        .iter()
        .fold(0u64, |sum, number| sum.wrapping_add(u64::from(*number)))
}

fn main(rt: HostRuntime) {
    // A letter that the input lacks stays 0.
    let mut letters = [0; 18];
    let _ = rt.stdin().read_exact(&mut letters);
    let state = changed(&rt, passed(letters), letters);
    asked(&rt, state, six_bits(letters[12]));
    let limit = numbers::limit(six_bits(letters[13]) as usize);
    tell(
        &rt,
        b"limit ",
        u64::from(limit) | unseen(power_of(letters[13])),
    );
    let state = served(&rt, ran(&rt, state, letters), letters);
    tell(&rt, b"sum ", sum_of(state));
}
