// Runs the library on cases that were worked by hand, and compares what comes with what is stored.
#![tactic(auto)]

use report::Report;
use std::io;
use std::io::Write;

mod answer;
mod case;
mod fields;
mod halls;
mod labels;
mod report;
mod sequences;
mod strings;

fn main(rt: HostRuntime) -> io::Result<()> {
    let mut report = Report::new();
    let mut text = Vec::new(rt.alloc());
    fields::run(rt.alloc(), &mut report, &mut text)?;
    strings::run(rt.alloc(), &mut report, &mut text)?;
    labels::run(rt.alloc(), &mut report, &mut text)?;
    sequences::run(rt.alloc(), &mut report, &mut text)?;
    halls::run(rt.alloc(), &mut report, &mut text)?;
    report.total(&mut text)?;
    let mut output = rt.stdout();
    output.write_all(text.as_slice())?;
    output.flush()
}
