// Books: which Application Identifiers there are, and what a field behind each of them may be.
#![tactic(auto)]

pub mod book;
pub mod entry;
pub mod fault;
pub mod gs1;
pub mod hall;
pub mod ident;
pub mod ident_text;
mod load;
pub mod predefined;
mod row;
mod spelled;
#[cfg(test)]
mod tests;
mod word;
