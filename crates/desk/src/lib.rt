// What the programs share: lines and what answers them, the book in use, what a card writes, refusals and values as text.
#![tactic(auto)]

pub mod book;
pub mod in_use;
pub mod line;
pub mod program;
pub mod refusal;
#[cfg(test)]
mod tests;
pub mod told;
pub mod undone;
pub mod writing;
