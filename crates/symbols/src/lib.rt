// Symbols as lists of values: a reader, and a writer that adds element by element.
#![tactic(auto)]

pub mod code;
mod encode;
pub mod fault;
pub mod reader;
pub mod state;
#[cfg(test)]
mod tests;
pub mod writer;
