// The galley at the console: what `gfresh`, `gsample`, `gspan`, `gread`, `gdump`, `gload` and `gshow` answer. specs/ says what they are.
#![tactic(auto)]

pub mod commands;
pub mod degrees;
pub mod show;
