// The commands of the controller: what each makes of what is in hand, and the two texts of their own. specs/ says what they are.
#![tactic(auto)]

pub mod cabin;
pub mod controller;
pub mod speeds;
