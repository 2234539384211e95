ghost use Rattle.std.specs.Prelude.{⊤};

use crate::program::{Program, run};
use crate::refusal::{add_refusal, write_refusal};
use commands::error::LineError;
use commands::line::Command;
use commands::parse::parse;
use forms::fault::FieldFault;
use forms::refusal::Refusal;
use std::alloc::Global;
use std::io;
use std::io::Write;
use std::test::Fail;

// A program that tells of each command that it was given one, and at the end how many.
#[derive(Drop)]
struct Counter {
    commands: u8,
}

impl Program for Counter {
    type Command = Command;

    ghost reads = { λ _ _. ⊤ };

    fn read(heap: Global, line: &[u8]) -> Result<Option<Command>, LineError> {
        parse(heap, line)
    }

    fn obey(&mut self, _heap: Global, _command: Command, out: &mut Vec<u8>) -> io::Result<()> {
        self.commands = self.commands.saturating_add(1);
        writeln!(out, "one")
    }

    fn finish(&self, _heap: Global, out: &mut Vec<u8>) -> io::Result<()> {
        let commands = self.commands;
        writeln!(out, "{commands} in all")
    }
}

#[test]
fn answers(rt: HostRuntime) -> Result<(), Fail> {
    let mut input = b"# a remark\r\n\nseal\r\nseal 1\nadd \\zz\nwipe".as_slice();
    let mut output = Vec::new(rt.alloc());
    run(rt.alloc(), Counter { commands: 0 }, &mut input, &mut output)?;
    assert!(rt;
        output.as_slice() == b"one\n? bad number\n? bad escape\none\n2 in all\n".as_slice()
    );
    Ok(())
}

#[test]
fn refusals(rt: HostRuntime) -> Result<(), Fail> {
    let fault = FieldFault::CheckDigit { place: 13 };
    let mut out = Vec::new(rt.alloc());
    write_refusal(rt.alloc(), &fault, &mut out)?;
    out.push(b'\n')?;
    add_refusal(rt.alloc(), &Refusal::of(&fault), &mut out)?;
    assert!(rt; out.as_slice() == b"refused 6 field 13\nrefused 6 field 13".as_slice());
    Ok(())
}
