// Cases that were worked by hand.
use desk::undone::Undone;
use std::alloc::Global;

// What a case is run on.
pub trait Input {
    // Runs it, and adds what comes.
    fn run(&self, heap: Global, came: &mut Vec<u8>) -> Result<(), Undone>;
}

// A case: its name, what it is run on, and what is stored of it.
pub struct Case<I> {
    pub name: &'static str,
    pub input: I,
    pub stored: &'static [u8],
}
