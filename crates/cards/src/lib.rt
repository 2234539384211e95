// The card of a lane: a year and the elements of a pallet.
#![tactic(auto)]

pub mod card;
mod change;
pub mod fault;
mod held;
mod look;
pub mod make;
mod print;
pub mod row;
mod runs;
mod scan;
mod search;
mod strings;
#[cfg(test)]
mod tests;
mod turn;
