// Order strings at the console: what `run`, `encode` and `decode` answer. specs/ says what they are.
#![tactic(auto)]

pub mod decoded;
pub mod packets;
