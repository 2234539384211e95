// What can be asked of a card.
#![tactic(auto)]

pub mod call;
