// The galley's calls. specs/ of galley_rules says what they do.
#![tactic(auto)]

mod beginning;
mod sampling;
mod spans;
mod thermometer;

pub use beginning::{fresh, zero_galley};
pub use sampling::sample;
pub use spans::{rows, span_refusal, span_rows};
pub use thermometer::degrees;
