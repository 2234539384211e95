// Scans: the bytes of a label, read into elements under a book.
#![tactic(auto)]

pub mod element;
pub mod fault;
pub mod read;
#[cfg(test)]
mod tests;
