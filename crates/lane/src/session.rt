// What a lane holds between two lines, and what each line does to it.
ghost use Rattle.std.specs.Prelude.{option_map};
ghost use Rattle.commands.specs.Judgements.{Says};
ghost use Rattle.commands.specs.Lines.{command_asked};
ghost use Rattle.commands.specs.Meanings.{meant};

use crate::answer::{write_element, write_reading, write_value, write_values};
use crate::label::OpenSymbol;
use books::book::Book;
use books::gs1::Gs1Book;
use calls::call::Call;
use cards::card::Card;
use commands::complaint::Complaint;
use commands::error::LineError;
use commands::line::{BookChoice, Command};
use commands::parse::parse;
use desk::book::HallWords;
use desk::in_use::BookInUse;
use desk::program::Program;
use desk::undone::{Undone, refused};
use forms::field::Field;
use forms::judge::judge;
use forms::kind::FormKind;
use history::call::obey;
use scans::element::next_element;
use scans::read::count_elements;
use std::alloc::Global;
use std::io;
use std::io::Write;

// A lane: its card, the book that it uses, its open symbol, and how many commands it has answered and refused.
#[derive(Drop)]
pub struct Session {
    card: Card,
    book: BookInUse,
    symbol: Option<OpenSymbol>,
    commands: u64,
    refused: u64,
}

impl Session {
    // A lane that has answered nothing yet, with a new card and the GS1 book.
    pub fn new() -> Session {
        Session {
            card: Card::make(),
            book: BookInUse::Gs1,
            symbol: None,
            commands: 0,
            refused: 0,
        }
    }

    // Does what a command asks for, and adds what is answered.
    fn carry_out(
        &mut self,
        heap: Global,
        command: Command,
        out: &mut Vec<u8>,
    ) -> Result<(), Undone> {
        match command {
            Command::Call(call) => self.call(&call, out),
            Command::Look(ident) => Ok(self.look(ident.as_slice(), out)?),
            Command::Field { kind, bytes } => self.field(kind, bytes.as_slice(), out),
            Command::Read(bytes) => self.read_scan(bytes.as_slice(), out),
            Command::Book(choice) => self.choose(choice, out),
            Command::Begin { room } => self.begin(heap, room, out),
            Command::Add(bytes) => self.add(bytes.as_slice(), out),
            Command::Seal => self.seal(out),
        }
    }

    // Calls the card, and adds how many idents came to be held, where the call tells that.
    fn call(&mut self, call: &Call<Vec<u8>>, out: &mut Vec<u8>) -> Result<(), Undone> {
        match obey(&mut self.card, &self.book, call)? {
            Some(n) => writeln!(out, "ok {n}")?,
            None => writeln!(out, "ok")?,
        }
        Ok(())
    }

    // Adds what is answered to the bytes of one field.
    fn field(&self, kind: FormKind, bytes: &[u8], out: &mut Vec<u8>) -> Result<(), Undone> {
        let mut writing = [0; 30];
        let field = Field { bytes, at: 0 };
        let reading = judge(kind, self.card.year(), field, &mut writing).map_err(refused)?;
        write!(out, "ok ")?;
        write_reading(&reading, &writing, out)?;
        writeln!(out)?;
        Ok(())
    }

    // Adds the elements of a scan, which are judged under the book and in the card's year.
    fn read_scan(&self, scan: &[u8], out: &mut Vec<u8>) -> Result<(), Undone> {
        let year = self.card.year();
        let n = count_elements(&self.book, year, scan).map_err(refused)?;
        writeln!(out, "ok {n}")?;
        let mut at = 3;
        // Kept: no iterator, since each item would have to carry its place and a copy of its writing, which the loop has at hand.
        for _ in 0..n {
            let mut writing = [0; 30];
            let Ok(Some(element)) = next_element(&self.book, year, scan, at, &mut writing) else {
                break;
            };
            write!(out, " ")?;
            write_element(&element.entry.ident, &element.reading, &writing, out)?;
            at = element.next;
        }
        Ok(())
    }

    // Adds the value that is held under an ident, or that none is held.
    fn look(&self, ident: &[u8], out: &mut Vec<u8>) -> io::Result<()> {
        let mut text = [0; 30];
        match self.card.look(ident, &mut text) {
            Some(value) => write_value(&value, &text, out)?,
            None => write!(out, "none")?,
        }
        writeln!(out)
    }

    // Uses a book, and adds how many entries it has; where the words are no book, keeps the one in use.
    fn choose(&mut self, choice: BookChoice, out: &mut Vec<u8>) -> Result<(), Undone> {
        let n = match choice {
            BookChoice::Gs1 => {
                self.book = BookInUse::Gs1;
                Gs1Book.count()
            }
            BookChoice::Hall(words) => {
                let hall = HallWords::new(words).map_err(refused)?;
                let n = hall.book().count();
                self.book = BookInUse::Hall(hall);
                n
            }
        };
        writeln!(out, "ok {n}")?;
        Ok(())
    }

    // Begins a symbol, in place of one that is open.
    fn begin(&mut self, heap: Global, room: usize, out: &mut Vec<u8>) -> Result<(), Undone> {
        self.symbol = Some(OpenSymbol::begin(heap, room)?);
        writeln!(out, "ok")?;
        Ok(())
    }

    // Adds an element to the open symbol, which stays open.
    fn add(&mut self, element: &[u8], out: &mut Vec<u8>) -> Result<(), Undone> {
        let symbol = self.symbol.take().ok_or(Complaint::NoOpenSymbol)?;
        match symbol.add(element) {
            Ok(symbol) => {
                self.symbol = Some(symbol);
                writeln!(out, "ok")?;
                Ok(())
            }
            Err((symbol, fault)) => {
                self.symbol = Some(symbol);
                Err(refused(fault))
            }
        }
    }

    // Seals the open symbol, which is then no longer open.
    fn seal(&mut self, out: &mut Vec<u8>) -> Result<(), Undone> {
        let symbol = self.symbol.take().ok_or(Complaint::NoOpenSymbol)?;
        match symbol.seal() {
            Ok(values) => Ok(write_values(values.as_slice(), out)?),
            Err((symbol, fault)) => {
                self.symbol = Some(symbol);
                Err(refused(fault))
            }
        }
    }
}

impl Program for Session {
    type Command = Command;

    ghost reads = { λ line r. Says (option_map command_asked) r (meant line) };

    fn read(heap: Global, line: &[u8]) -> Result<Option<Command>, LineError> {
        parse(heap, line)
    }

    // Counts the command, if it could be tried.
    fn obey(&mut self, heap: Global, command: Command, out: &mut Vec<u8>) -> io::Result<()> {
        match self.carry_out(heap, command, out) {
            Ok(()) => {}
            Err(Undone::Refused(refusal)) => {
                self.refused = self.refused.saturating_add(1);
                writeln!(out, "{refusal}")?;
            }
            Err(Undone::Untried(complaint)) => return writeln!(out, "{complaint}"),
            Err(Undone::Unwritten(error)) => return Err(error),
        }
        self.commands = self.commands.saturating_add(1);
        Ok(())
    }

    // Adds the account.
    fn finish(&self, _heap: Global, out: &mut Vec<u8>) -> io::Result<()> {
        let Session {
            commands,
            refused,
            ..
        } = self;
        let year = self.card.year().number();
        let held = self.card.count();
        writeln!(out, "account")?;
        writeln!(out, "commands {commands} refused {refused}")?;
        writeln!(out, "year {year}")?;
        writeln!(out, "held {held}")?;
        for place in 0..held {
            let mut writing = [0; 30];
            if let Some((ident, reading)) = self.card.element(place, &mut writing) {
                write_element(&ident, &reading, &writing, out)?;
            }
        }
        Ok(())
    }
}
