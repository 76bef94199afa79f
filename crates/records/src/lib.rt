// The records of an order string, read one at a time. The definitions stand in `strings`.
#![tactic(auto)]

pub mod reader;
pub mod record;
