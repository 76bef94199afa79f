// The plain types of the galley box, which follows a temperature table and drives the controller. specs/ says what they mean.
#![tactic(auto)]

mod refusal;

pub use refusal::GalleyRefusal;
use rules::State;

// The bytes of a table, one a row.
pub const TABLE_BYTES: usize = 48;

// The galley's state. Temperatures are in eighths of a degree.
#[derive(Clone, Copy, Default)]
pub struct Galley {
    // 0 to 47.
    pub row: u8,
    // The last sample.
    pub temperature: i16,
    // ALERT is asserted above the one, SHDN above the other.
    pub high: i16,
    pub over: i16,
    // Set: 4 degrees. Clear: 2.
    pub hysteresis: bool,
    // The quiet table is in force.
    pub quiet: bool,
}

// What a sample gives: whether ALERT and SHDN are asserted, and both states.
#[derive(Clone, Copy)]
pub struct Sample {
    pub alert: bool,
    pub shutdown: bool,
    pub galley: Galley,
    pub state: State,
}
