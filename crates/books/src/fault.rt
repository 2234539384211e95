// Why the words of a hall's book are refused.
ghost use Rattle.books.specs.Faults.{book_number, book_layer, book_place};

use forms::fault::{Fault, Layer};

// Why a list of words is no book, and the place of the first word at fault, counted from 0.
#[derive(Clone, Copy, Debug, PartialEq, Eq)]
pub enum BookFault {
    // a word that spells no lawful entry, or one past the 64th
    Unlawful { place: usize },
    // a word whose ident equals, begins or is begun by the ident of an earlier word
    Overlap { place: usize },
}

impl Fault for BookFault {
    ghost numbered = { book_number };

    ghost layered = { book_layer };

    ghost placed = { book_place };

    fn number(&self) -> u8 {
        match self {
            BookFault::Unlawful { .. } => 21,
            BookFault::Overlap { .. } => 22,
        }
    }

    fn layer(&self) -> Layer {
        Layer::Book
    }

    fn place(&self) -> u128 {
        match self {
            BookFault::Unlawful { place } | BookFault::Overlap { place } => *place as u128,
        }
    }
}
