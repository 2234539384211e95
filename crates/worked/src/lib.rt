// Cases that were worked by hand, shown of the definitions and kept for programs to run.
#![tactic(auto)]

pub mod stored;
