// What the console has in hand, what a command makes of it, and how that is printed. specs/ says what they are.
#![tactic(auto)]

pub mod hand;
pub mod list;
pub mod outcome;
pub mod print;
