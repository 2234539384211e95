// The forms of a field: which bytes are lawful in a card's year, what they mean, and how that is written again.
#![tactic(auto)]

pub mod bytes;
pub mod count;
pub mod date;
pub mod digits;
pub mod fault;
pub mod field;
pub mod form;
pub mod judge;
pub mod key;
pub mod kind;
pub mod measure;
pub mod numbers;
pub mod packed;
pub mod refusal;
pub mod stamp;
#[cfg(test)]
mod tests;
pub mod text;
pub mod value;
pub mod year;
