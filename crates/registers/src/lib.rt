// The register file: what stands at an address, the fields of a register, what it keeps of a written byte, and what every access does.
#![tactic(auto)]

pub mod access;
pub mod fields;
pub mod kept;
pub mod map;
