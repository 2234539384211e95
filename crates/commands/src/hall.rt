// Lines for two halls.
ghost use Rattle.std.specs.Prelude.{◌≡◌, Some, option_map};
ghost use Rattle.commands.specs.HallLines.{hall_asked, hall_call_meant, hall_word_meant, hall_line_meant};
ghost use Rattle.commands.specs.Judgements.{Says};
ghost use Rattle.commands.specs.Calls.{call_asked};
ghost use Rattle.commands.specs.Names.{hall_name, hall_word_named};

use crate::book::book_choice;
use crate::call::card_call;
use crate::complaint::Complaint;
use crate::cut::{behind, said, split_word};
use crate::error::LineError;
use crate::line::BookChoice;
use crate::name::{HallWord, find};
use calls::call::Call;
use std::alloc::Global;
use std::fmt;

// Which of two halls.
#[derive(Clone, Copy, Debug, PartialEq, Eq)]
pub enum Hall {
    // the hall of number 1
    First,
    // the hall of number 2
    Second,
}

impl Hall {
    // Its number, as it is written.
    pub fn text(self) -> &'static str
        ensures { result.now ≡ hall_name self }
    {
        match self {
            Hall::First => "1",
            Hall::Second => "2",
        }
    }
}

// Writes the number.
impl fmt::Display for Hall {
    ghost output = { λ hall. Some (hall_name hall) };

    fn fmt<W: fmt::Write>(&self, f: &mut fmt::Formatter<W>) -> fmt::Result {
        f.write_str(self.text())
    }
}

// What a line for two halls can ask for.
#[derive(Drop)]
pub enum HallCommand {
    // call the card of that hall
    Call { hall: Hall, call: Call<Vec<u8>> },
    // let both halls use that book
    Book(BookChoice),
}

// A call of a card: the word of the call, and its arguments.
fn named_call(heap: Global, tail: &[u8]) -> Result<Call<Vec<u8>>, LineError>
    ensures { Says call_asked result (hall_call_meant tail.now) }
{
    let (name, args) = split_word(behind(tail));
    card_call(heap, find(name).ok_or(Complaint::UnknownCommand)?, args)
}

// The command of that word with that tail.
fn hall_command(heap: Global, word: &[u8], tail: &[u8]) -> Result<HallCommand, LineError>
    ensures { Says hall_asked result (hall_word_meant (hall_word_named word.now) tail.now) }
{
    match find(word).ok_or(Complaint::UnknownCommand)? {
        HallWord::Hall(hall) => {
            let call = named_call(heap, tail)?;
            Ok(HallCommand::Call { hall, call })
        }
        HallWord::Book => Ok(HallCommand::Book(book_choice(heap, tail)?)),
    }
}

// What a line for two halls asks for, which is given without the bytes that end it; nothing where it is silent.
// An empty line and one that begins with `#` are silent. Any other is `1` or `2` and, behind a space, a call of the card
// of that hall, or it is `book` and, behind a space, a book.
pub fn parse_hall(heap: Global, line: &[u8]) -> Result<Option<HallCommand>, LineError>
    ensures { Says (option_map hall_asked) result (hall_line_meant line.now) }
{
    let Some((word, tail)) = said(line) else {
        return Ok(None);
    };
    Ok(Some(hall_command(heap, word, tail)?))
}
