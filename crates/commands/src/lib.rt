// The command language: what a line of input means, and how bytes are shown.
#![tactic(auto)]

mod arguments;
mod book;
mod call;
pub mod complaint;
pub mod cut;
pub mod error;
pub mod escape;
pub mod hall;
pub mod line;
mod name;
pub mod number;
pub mod parse;
pub mod show;
#[cfg(test)]
mod tests;
