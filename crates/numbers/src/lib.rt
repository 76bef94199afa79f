// The state as its numbers, and back: `dump` and `load`. specs/ has the table of them.
#![tactic(auto)]

ghost use Rattle.std.specs.Prelude.{◌≡◌};
ghost use Rattle.rules.specs.Basics.{bit};
ghost use Rattle.rules.specs.Read.{control_byte};
ghost use Rattle.rules.specs.Duty.{fault_byte};
ghost use Rattle.lent.specs.Values.{number};
ghost use Rattle.numbers.specs.Numbers.{box_table, channel_table, Numbers, limits, limit_at, Within, state_numbers, channel_from, channel_at, registers_from, timer_from, start_from, state_from};

use device::duty::fault_byte;
use lent::{after, byte, value, word};
use registers::kept::control_byte;
use rules::{Channel, ChannelIndex, Registers, StartValues, State, Timer};

// How many numbers the box has, each channel, and a state.
pub const BOX_NUMBERS: usize = 16;

pub const CHANNEL_NUMBERS: usize = 10;

pub const STATE_NUMBERS: usize = BOX_NUMBERS + 6 * CHANNEL_NUMBERS;

// The most that a number of each kind can be, and so each of them.
const FLAG: u32 = 1;

const BYTE: u32 = 255;

const WORD: u32 = 65535;

const BOX_LIMITS: [u32; BOX_NUMBERS] = [
    u32::MAX,
    FLAG,
    BYTE,
    BYTE,
    63,
    BYTE,
    BYTE,
    BYTE,
    FLAG,
    WORD,
    BYTE,
    BYTE,
    WORD,
    BYTE,
    BYTE,
    WORD,
];

const CHANNEL_LIMITS: [u32; CHANNEL_NUMBERS] = [
    BYTE, BYTE, WORD, WORD, WORD, WORD, WORD, BYTE, BYTE, BYTE,
];

// One in CHANNEL_NUMBERS, as so many in 512 and rounded up. Below the numbers of six channels both give the same whole number, and
// to divide by 512 is a shift.
const IN_512: usize = 512 / CHANNEL_NUMBERS + 1;

// The most that a number of the state can be; past the last the definition gives 0 (`limit_at`).
pub fn limit(i: usize) -> u32
    ensures { result ≡ limit_at i }
{
    match i {
        0..BOX_NUMBERS => BOX_LIMITS[i],
        BOX_NUMBERS..STATE_NUMBERS => {
            let at = i - BOX_NUMBERS;
            let channel = at * IN_512 / 512;
            CHANNEL_LIMITS[at - channel * CHANNEL_NUMBERS]
        }
        _ => 0,
    }
}

// ---- the numbers of a state

fn box_numbers(state: State) -> [u32; BOX_NUMBERS]
    ensures { Numbers box_table state result }
{
    let State {
        channels,
        registers,
        pin,
        start,
        timer,
    } = state;
    [
        timer.clock,
        u32::from(pin),
        u32::from(control_byte(registers.control, timer.status)),
        u32::from(registers.frequency),
        u32::from(fault_byte(channels)),
        u32::from(registers.mask2),
        u32::from(registers.mask1),
        u32::from(registers.options),
        u32::from(timer.expired),
        u32::from(timer.idle),
        u32::from(start.watchdog),
        u32::from(start.spinup),
        u32::from(start.target),
        u32::from(start.frequency),
        u32::from(start.modification),
        u32::from(timer.wait),
    ]
}

fn channel_numbers(channel: Channel) -> [u32; CHANNEL_NUMBERS]
    ensures { Numbers channel_table channel result }
{
    [
        u32::from(channel.config),
        u32::from(channel.dynamics),
        u32::from(channel.count),
        u32::from(channel.ramp),
        u32::from(channel.spin),
        u32::from(channel.target),
        u32::from(channel.target_count),
        u32::from(channel.window),
        u32::from(channel.queue),
        u32::from(channel.pulses),
    ]
}

// The numbers of a state, which are within the limits: those of the box, and then those of each channel.
pub fn numbers_of(state: State) -> [u32; STATE_NUMBERS]
    ensures { (result ≡ state_numbers state) × Within limits result }
{
    let mut numbers = [0; STATE_NUMBERS];
    numbers[..BOX_NUMBERS].copy_from_slice(&box_numbers(state));
    for (i, channel) in state.channels.iter().enumerate() {
        let from = BOX_NUMBERS + i * CHANNEL_NUMBERS;
        numbers[from..from + CHANNEL_NUMBERS].copy_from_slice(&channel_numbers(*channel));
    }
    numbers
}

// ---- the state of its numbers

// The flag in the lowest bit of a number.
fn flag(values: &[u32], i: usize) -> bool
    ensures { result ≡ bit 0 (number values.now i) }
{
    value(values, i) % 2 == 1
}

// The fault of a channel: the number of faults has a bit for each.
fn fault(values: &[u32], channel: ChannelIndex) -> bool
    ensures { result ≡ bit channel (number values.now 4) }
{
    (value(values, 4) >> channel.get()) % 2 == 1
}

// The channel that its own numbers make.
fn channel_of(own: &[u32], fault: bool) -> Channel
    ensures { result ≡ channel_from fault own.now }
{
    Channel {
        config: byte(own, 0),
        dynamics: byte(own, 1),
        window: byte(own, 7),
        pulses: byte(own, 9),
        target: word(own, 5),
        target_count: word(own, 6),
        count: word(own, 2),
        queue: byte(own, 8),
        fault,
        ramp: word(own, 3),
        spin: word(own, 4),
    }
}

#[tactic(auto, unfolding(crate::specs::Numbers::channel_at))]
fn channel_at(values: &[u32], channel: ChannelIndex) -> Channel
    ensures { result ≡ channel_at values.now channel }
{
    let own = after(values, BOX_NUMBERS + channel.get() * CHANNEL_NUMBERS);
    channel_of(own, fault(values, channel))
}

fn registers_of(values: &[u32]) -> Registers
    ensures { result ≡ registers_from values.now }
{
    Registers {
        control: byte(values, 2) / 2 * 2,
        frequency: byte(values, 3),
        mask2: byte(values, 5),
        mask1: byte(values, 6),
        options: byte(values, 7),
    }
}

fn timer_of(values: &[u32]) -> Timer
    ensures { result ≡ timer_from values.now }
{
    Timer {
        clock: value(values, 0),
        idle: word(values, 9),
        wait: word(values, 15),
        expired: flag(values, 8),
        status: flag(values, 2),
    }
}

fn start_of(values: &[u32]) -> StartValues
    ensures { result ≡ start_from values.now }
{
    StartValues {
        watchdog: byte(values, 10),
        spinup: byte(values, 11),
        target: word(values, 12),
        frequency: byte(values, 13),
        modification: byte(values, 14),
    }
}

// The state that its numbers make; those that are missing are 0.
pub fn state_of(values: &[u32]) -> State
    ensures { result ≡ state_from values.now }
{
    State {
        channels: std::array::from_fn(|i| channel_at(values, ChannelIndex::new(i).unwrap())),
        registers: registers_of(values),
        pin: flag(values, 1),
        start: start_of(values),
        timer: timer_of(values),
    }
}
