// What the galley's calls share: temperatures and the rows that they stand for, the two lent tables, whether a galley is valid.
#![tactic(auto)]

pub mod tables;
pub mod temperature;
pub mod valid;
