// The lines of the cases, and how many there are.
use crate::case::{Case, Input};
use desk::refusal::add_refusal;
use desk::undone::Undone;
use std::alloc::Global;
use std::io;
use std::io::Write;

// How many cases were run, and how many of them came out otherwise than stored.
#[derive(Clone, Copy)]
pub struct Report {
    cases: u64,
    wrong: u64,
}

impl Report {
    // No case was run.
    pub fn new() -> Report {
        Report { cases: 0, wrong: 0 }
    }

    // Adds the line of a case: its name, what came, what is stored, and whether they are the same.
    pub fn line(
        &mut self,
        name: &str,
        came: &[u8],
        stored: &[u8],
        out: &mut Vec<u8>,
    ) -> io::Result<()> {
        self.line_named(name.as_bytes(), came, stored, out)
    }

    // The same, with a name that is bytes.
    pub fn line_named(
        &mut self,
        name: &[u8],
        came: &[u8],
        stored: &[u8],
        out: &mut Vec<u8>,
    ) -> io::Result<()> {
        let verdict = if came == stored { "ok" } else { "WRONG" };
        self.cases = self.cases.saturating_add(1);
        self.wrong = self.wrong.saturating_add(u64::from(came != stored));
        out.write_all(name)?;
        out.write_all(b" | ")?;
        out.write_all(came)?;
        out.write_all(b" | ")?;
        out.write_all(stored)?;
        writeln!(out, " | {verdict}")
    }

    // Runs each case, and adds its line.
    pub fn all<I: Input>(
        &mut self,
        heap: Global,
        cases: &[Case<I>],
        out: &mut Vec<u8>,
    ) -> io::Result<()> {
        for case in cases {
            let mut came = Vec::new(heap);
            match case.input.run(heap, &mut came) {
                Ok(()) => {}
                Err(Undone::Refused(refusal)) => add_refusal(heap, &refusal, &mut came)?,
                Err(Undone::Untried(complaint)) => write!(came, "{complaint}")?,
                Err(Undone::Unwritten(error)) => return Err(error),
            }
            self.line(case.name, came.as_slice(), case.stored, out)?;
        }
        Ok(())
    }

    // Adds the last line: how many cases there were, and how many were wrong.
    pub fn total(&self, out: &mut Vec<u8>) -> io::Result<()> {
        let cases = self.cases;
        let wrong = self.wrong;
        writeln!(out, "{cases} cases, {wrong} wrong")
    }
}
