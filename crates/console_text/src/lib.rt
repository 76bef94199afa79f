// Numbers and words from text, and numbers back to text. specs/ says what they mean.
#![tactic(auto)]

pub mod decimal;
pub mod fraction;
pub mod gathered;
pub mod line;
pub mod number;
pub mod signed;
