// Programs that answer lines.
ghost use Rattle.std.specs.Prelude.{ℕ, List, Option, Result, IsOk};
ghost use Rattle.commands.specs.declared.complaint.Complaint.{Complaint};
ghost use Rattle.commands.specs.declared.error.Failure.{Failure};
ghost use Rattle.desk.specs.Answers.{Answered};

use crate::line::without_end;
use commands::error::{Failure, LineError};
use std::alloc::Global;
use std::io;
use std::io::{BufRead, Write};

// What answers lines.
pub trait Program: Drop {
    // What a line can ask for.
    type Command: Drop;

    // Holds of a line and what it may be read as.
    ghost reads: { List ℕ → Result (Option Self.Command) (Failure Complaint) → Type 0 };

    // What a line asks for, which is given without the bytes that end it; nothing where it is silent.
    fn read(heap: Global, line: &[u8]) -> Result<Option<Self::Command>, LineError>
        ensures { reads line.now result };

    // Adds what is answered to a command.
    fn obey(&mut self, heap: Global, command: Self::Command, out: &mut Vec<u8>) -> io::Result<()>;

    // Adds what is told at the end.
    fn finish(&self, heap: Global, out: &mut Vec<u8>) -> io::Result<()>;
}

// Adds what a program answers to a line. A silent line changes nothing; a complaint is told, and changes nothing else.
pub fn answer<P: Program>(
    program: &mut P,
    heap: Global,
    line: &[u8],
    out: &mut Vec<u8>,
) -> io::Result<()>
    ensures { Answered (P.Program.reads line.now) program.old program.new out.old.items out.new.items (IsOk result) }
{
    match P::read(heap, line) {
        Ok(None) => Ok(()),
        Ok(Some(command)) => program.obey(heap, command, out),
        Err(Failure::Refused(complaint)) => writeln!(out, "{complaint}"),
        Err(Failure::Memory(lack)) => Err(lack.into()),
    }
}

// Answers each line of the input, as soon as it is read, and tells at its end what is told then.
pub fn run<P: Program, R: BufRead, W: Write>(
    heap: Global,
    mut program: P,
    input: &mut R,
    output: &mut W,
) -> io::Result<()> {
    let mut line = Vec::new(heap);
    let mut text = Vec::new(heap);
    // Kept: every loop has to end, so that this one has a last turn, which no input reaches.
    for _ in 0..u64::MAX {
        line.clear();
        if input.read_until(b'\n', &mut line)? == 0 {
            break;
        }
        text.clear();
        answer(&mut program, heap, without_end(line.as_slice()), &mut text)?;
        output.write_all(text.as_slice())?;
        output.flush()?;
    }
    text.clear();
    program.finish(heap, &mut text)?;
    output.write_all(text.as_slice())?;
    output.flush()
}
