// What is known of two halls between two lines, and what each line does to it.
ghost use Rattle.std.specs.Prelude.{option_map};
ghost use Rattle.commands.specs.HallLines.{hall_asked, hall_line_meant};
ghost use Rattle.commands.specs.Judgements.{Says};

use crate::report::write_report;
use calls::call::Call;
use commands::complaint::Complaint;
use commands::error::LineError;
use commands::hall::{Hall, HallCommand, parse_hall};
use commands::line::BookChoice;
use desk::book::HallWords;
use desk::in_use::BookInUse;
use desk::program::Program;
use desk::refusal::write_refusal;
use std::alloc::Global;
use std::io;
use std::io::Write;

// Two halls: the book that both use, and the calls of each, in the order in which they came.
#[derive(Drop)]
pub struct Halls {
    book: BookInUse,
    first: Vec<Call<Vec<u8>>>,
    second: Vec<Call<Vec<u8>>>,
}

impl Halls {
    // Two halls without a call yet, and the GS1 book.
    pub fn new(heap: Global) -> Halls {
        Halls {
            book: BookInUse::Gs1,
            first: Vec::new(heap),
            second: Vec::new(heap),
        }
    }

    // Keeps a call of that hall, behind those that it has.
    fn keep(&mut self, hall: Hall, call: Call<Vec<u8>>) -> io::Result<()> {
        match hall {
            Hall::First => self.first.push(call)?,
            Hall::Second => self.second.push(call)?,
        }
        Ok(())
    }

    // Uses a book, if there was no call yet; where it is no book, adds that, and keeps the one in use.
    fn choose(&mut self, heap: Global, choice: BookChoice, out: &mut Vec<u8>) -> io::Result<()> {
        if !self.first.is_empty() || !self.second.is_empty() {
            let complaint = Complaint::TooLate;
            return writeln!(out, "{complaint}");
        }
        match choice {
            BookChoice::Gs1 => self.book = BookInUse::Gs1,
            BookChoice::Hall(words) => match HallWords::new(words) {
                Ok(hall) => self.book = BookInUse::Hall(hall),
                Err(fault) => {
                    write_refusal(heap, &fault, out)?;
                    writeln!(out)?;
                }
            },
        }
        Ok(())
    }
}

impl Program for Halls {
    type Command = HallCommand;

    ghost reads = { λ line r. Says (option_map hall_asked) r (hall_line_meant line) };

    fn read(heap: Global, line: &[u8]) -> Result<Option<HallCommand>, LineError> {
        parse_hall(heap, line)
    }

    // Keeps what a line says. Nothing is answered to a call, or to a book that is used from here on.
    fn obey(&mut self, heap: Global, command: HallCommand, out: &mut Vec<u8>) -> io::Result<()> {
        match command {
            HallCommand::Call { hall, call } => self.keep(hall, call),
            HallCommand::Book(choice) => self.choose(heap, choice, out),
        }
    }

    // Adds what became of the two cards.
    fn finish(&self, heap: Global, out: &mut Vec<u8>) -> io::Result<()> {
        write_report(
            heap,
            &self.book,
            self.first.as_slice(),
            self.second.as_slice(),
            out,
        )
    }
}
