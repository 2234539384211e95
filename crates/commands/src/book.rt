// The book that a line names.
ghost use Rattle.std.specs.Prelude.{◌≡◌};
ghost use Rattle.commands.specs.Calls.{book_asked};
ghost use Rattle.commands.specs.Judgements.{Says};
ghost use Rattle.commands.specs.Meanings.{book_meant};

use crate::arguments::{all_numbers, no_arguments};
use crate::complaint::Complaint;
use crate::cut::{behind, split_word};
use crate::error::LineError;
use crate::line::BookChoice;
use crate::name::{BookName, find};
use std::alloc::Global;

// The book that stands behind the word `book`: its name, and what belongs to it.
pub(crate) fn book_choice(heap: Global, tail: &[u8]) -> Result<BookChoice, LineError>
    ensures { Says book_asked result (book_meant tail.now) }
{
    let (name, args) = split_word(behind(tail));
    match find(name).ok_or(Complaint::UnknownCommand)? {
        BookName::Gs1 => {
            no_arguments(args)?;
            Ok(BookChoice::Gs1)
        }
        BookName::Hall => Ok(BookChoice::Hall(all_numbers(heap, args)?)),
    }
}
