// What the calls share: what the codes stand for, whether a state is valid, which duty comes out of a channel, and the state as at
// start.
#![tactic(auto)]

pub mod codes;
pub mod duty;
pub mod fresh;
pub mod valid;
