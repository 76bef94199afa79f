// The plain types that the rules speak of. specs/ says what they mean.
#![tactic(auto)]

mod index;
mod refusal;

pub use index::ChannelIndex;
pub use refusal::Refusal;

// One channel: a fan's registers, its tachometer results, and where its duty stands.
#[derive(Clone, Copy, Default)]
pub struct Channel {
    // 02h to 07h, 08h to 0Dh and 60h to 65h, as they read.
    pub config: u8,
    pub dynamics: u8,
    pub window: u8,
    // The pulses counted in a running spin-up, 0 or 1: here, since a channel has 16 bytes with it and would have 18 elsewhere.
    pub pulses: u8,
    // Target duty (40h to 4Bh), 0 to 511; target count (50h to 5Bh), 0 to 2,047.
    pub target: u16,
    pub target_count: u16,
    // The stored tachometer count, the queue count and the fault bit.
    pub count: u16,
    pub queue: u8,
    pub fault: bool,
    // The ramp value, 0 to 511, and the remaining spin-up ticks.
    pub ramp: u16,
    pub spin: u16,
}

// What a tachometer result changes of a channel.
#[derive(Clone, Copy)]
pub struct Results {
    pub count: u16,
    pub queue: u8,
    pub fault: bool,
}

// The registers of the whole box that can be written. 00h is kept without its status bit.
#[derive(Clone, Copy, Default)]
pub struct Registers {
    pub control: u8,
    pub frequency: u8,
    pub mask2: u8,
    pub mask1: u8,
    pub options: u8,
}

// The pin-set values that start was given: a reset needs them again.
#[derive(Clone, Copy, Default)]
pub struct StartValues {
    pub watchdog: u8,
    pub spinup: u8,
    pub target: u16,
    pub frequency: u8,
    // 0 is A, 1 is B. No enum: `load` can give any number, and `dump` gives it back (`round-trips`).
    pub modification: u8,
}

// What a tick moves besides the channels: the clock, the watchdog, and the wait that the channels share.
#[derive(Clone, Copy, Default)]
pub struct Timer {
    pub clock: u32,
    pub idle: u16,
    // The ticks until a channel may leave ramp value 0, at most 2,048.
    pub wait: u16,
    pub expired: bool,
    // Bit 0 of 00h.
    pub status: bool,
}

#[derive(Clone, Copy, Default)]
pub struct State {
    pub channels: [Channel; 6],
    pub registers: Registers,
    // FULL_SPEED is high.
    pub pin: bool,
    pub start: StartValues,
    pub timer: Timer,
}

// What an override depends on besides the channel itself.
#[derive(Clone, Copy)]
pub struct Conditions {
    pub pin: bool,
    pub standby: bool,
    pub expired: bool,
    // The field as it is, which `failed_fan` tells apart.
    pub option: u8,
    // Some channel has its fault bit set.
    pub faulty: bool,
}

// A register of the whole box that can be written: 00h, 01h, 12h, 13h, 14h.
#[derive(Clone, Copy)]
pub enum BoxRegister {
    Control,
    Frequency,
    Mask2,
    Mask1,
    Options,
}

// A register that each channel has and that is written a byte at a time.
#[derive(Clone, Copy)]
pub enum ChannelRegister {
    Config,
    Dynamics,
    Window,
}

// A register of two bytes that each channel has and that is written a word at a time: target duty, target count.
#[derive(Clone, Copy)]
pub enum WordRegister {
    Target,
    TargetCount,
}

// A register that can only be read; of a channel's, which channel and whether it is the low byte.
#[derive(Clone, Copy)]
pub enum StatusRegister {
    Faults2,
    Faults1,
    Count(ChannelIndex, bool),
    // The count of one of the tachometers 7 to 12, which this box does not have.
    OtherCount(bool),
    Output(ChannelIndex, bool),
}

// What stands at an address, and so what may be done there. That nothing does is one of its answers and no `None`, as `place_at` and what
// is asked of a place (`is_carried` and on) have it.
#[derive(Clone, Copy)]
pub enum Place {
    Absent,
    ReadOnly(StatusRegister),
    Shared(BoxRegister),
    Own(ChannelRegister, ChannelIndex),
    // One byte of the register: of which channel, and whether it is the low one.
    OwnWord(WordRegister, ChannelIndex, bool),
}

// What an accepted read gives: the byte, which is always there, and the state after it.
#[derive(Clone, Copy)]
pub struct ByteRead {
    pub byte: u8,
    pub state: State,
}

// What any accepted call gives: of a read the byte, and the state after it.
#[derive(Clone, Copy)]
pub struct Made {
    pub byte: Option<u8>,
    pub state: State,
}

// A call that is handed a state and may change it. The two queries, which give the state back as it was, are none of these.
#[derive(Clone, Copy)]
pub enum Call {
    // The address and the byte.
    Write(u32, u8),
    // The address.
    Read(u32),
    // How many ticks pass.
    Ticks(u32),
    // The channel, counted from 1, and the count of its tachometer.
    Tachometer(u32, u32),
    // FULL_SPEED is high.
    Pin(bool),
    // The address and the word.
    WriteWord(u32, u16),
    // The channel, counted from 1, whose tachometer gave a pulse.
    Pulse(u32),
}

// The unmasked channels that have failed: how many, and the lowest of them (1 to 6).
#[derive(Clone, Copy)]
pub struct Failed {
    pub count: u32,
    pub lowest: u32,
}

// What the speed calculation gives.
#[derive(Clone, Copy)]
pub enum Speed {
    // Revolutions a minute.
    Rpm(u32),
    // The count ran out: the fan stands still, or turns too slowly for its range.
    Stopped,
    // The count is 0: the fan turns too fast for its range.
    TooFast,
}

// The clock in seconds, and each output duty as a share of full speed.
#[derive(Clone, Copy)]
pub struct Reading {
    pub seconds: f64,
    pub shares: [f64; 6],
}
