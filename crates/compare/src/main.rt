// Two halls that read one pallet: takes the calls of each, a line each, and tells at the end whether their cards agree.
#![tactic(auto)]

use desk::program::run;
use halls::Halls;
use std::io;
use std::io::BufReader;

mod filed;
mod halls;
mod relabel;
mod report;
mod verdict;

fn main(rt: HostRuntime) -> io::Result<()> {
    let mut input = BufReader::new(rt.alloc(), rt.stdin())?;
    let mut output = rt.stdout();
    run(rt.alloc(), Halls::new(rt.alloc()), &mut input, &mut output)
}
