// One lane: reads commands, a line each, answers each, and gives an account at the end.
#![tactic(auto)]

use desk::program::run;
use session::Session;
use std::io;
use std::io::BufReader;

mod answer;
mod label;
mod session;

fn main(rt: HostRuntime) -> io::Result<()> {
    let mut input = BufReader::new(rt.alloc(), rt.stdin())?;
    let mut output = rt.stdout();
    run(rt.alloc(), Session::new(), &mut input, &mut output)
}
