// Bytes in fixed memory.
#![tactic(auto)]

pub mod buffer;
pub mod fill;
