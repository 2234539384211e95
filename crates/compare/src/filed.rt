// Two cards that are filed beside each other, with their strings.
ghost use Rattle.std.specs.Prelude.{vec_items};
ghost use Rattle.history.specs.Calls.{requests_of};
ghost use Rattle.compare.specs.Filings.{Files};

use books::book::Book;
use calls::call::Call;
use cards::card::Card;
use commands::error::Failure;
use history::settle::settle;
use std::alloc::Global;
use symbols::fault::WriterFault;

// As many bytes as a canonical string can have: 32 elements of at most 34 bytes, and the separators between them.
const LONGEST: usize = 1120;

// A card after calls, how many of them were refused, and its canonical string.
#[derive(Drop)]
pub struct Filed {
    pub card: Card,
    pub refused: usize,
    pub string: Vec<u8>,
}

// Puts the calls of each hall to a card of its own.
pub fn settle_calls<B: Book>(
    heap: Global,
    book: &B,
    first: &[Call<Vec<u8>>],
    second: &[Call<Vec<u8>>],
) -> Result<(Filed, Filed), Failure<WriterFault>>
    ensures { Files (B.Book.entries book.now) (requests_of vec_items first.now) (requests_of vec_items second.now) result }
{
    let mut first_out = vec![in heap; 0; LONGEST]?;
    let mut second_out = vec![in heap; 0; LONGEST]?;
    let (one, other) = settle(
        book,
        first,
        second,
        first_out.as_mut_slice(),
        second_out.as_mut_slice(),
    )
    .map_err(Failure::Refused)?;
    first_out.truncate(one.len);
    second_out.truncate(other.len);
    Ok((
        Filed {
            card: one.card,
            refused: one.refused,
            string: first_out,
        },
        Filed {
            card: other.card,
            refused: other.refused,
            string: second_out,
        },
    ))
}
