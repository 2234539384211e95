// Two cards that are filed beside each other.
ghost use Rattle.std.specs.Prelude.{◌≡◌, ◌<◌, ◌≤◌, ◌++◌, length, drop, MatchResult};
ghost use Rattle.cards.specs.Cards.{tally};
ghost use Rattle.cards.specs.Strings.{canonical};
ghost use Rattle.history.specs.Calls.{requests_of};
ghost use Rattle.history.specs.Laws.{LawOfTheHalls, ReadsBackAnywhere};
ghost use Rattle.history.specs.Settling.{Settles};

use crate::replay::{Replayed, replay};
use books::book::Book;
use calls::call::Call;
use cards::card::Card;
use std::convert::AsSlice;
use symbols::fault::WriterFault;

// A card after a list of calls, how many of them were refused, and how many bytes its canonical string has.
#[derive(Clone, Copy)]
pub struct Settled {
    pub card: Card,
    pub refused: usize,
    pub len: usize,
}

// How many bytes a card's canonical string has.
fn string_length(card: &Card) -> usize
    ensures { result ≡ length (canonical (tally card.now)) }
{
    card.canonical(&mut []).unwrap_or_else(|fault| fault.needed)
}

// Refuses a buffer that is too short for a card's canonical string.
fn check_room(card: &Card, out: &[u8]) -> Result<(), WriterFault>
    ensures { MatchResult result (λ _. length (canonical (tally card.now)) ≤ length out.now) (λ f. (f.needed ≡ length (canonical (tally card.now))) × (length out.now < length (canonical (tally card.now)))) }
{
    let needed = string_length(card);
    if out.len() < needed {
        return Err(WriterFault { needed });
    }
    Ok(())
}

// Writes a card's canonical string over the first bytes of `out`, which is long enough.
fn write_string(replayed: Replayed, out: &mut [u8]) -> Settled
    requires { length (canonical (tally replayed.card)) ≤ length out.old }
    ensures card { result.card ≡ replayed.card }
    ensures refused { result.refused ≡ replayed.refused }
    ensures len { result.len ≡ length (canonical (tally replayed.card)) }
    ensures wrote { out.new ≡ canonical (tally replayed.card) ++ drop result.len out.old }
{
    let Replayed { card, refused } = replayed;
    let len = card.canonical(out).unwrap();
    Settled { card, refused, len }
}

// Puts each list of calls to a card of its own, straight from its making, and writes the two canonical strings over the first bytes
// of the two buffers. Where a buffer is too short, it is refused with the bytes needed, the first buffer's first, and both stay.
pub fn settle<B: Book, S: AsSlice<u8>>(
    book: &B,
    first: &[Call<S>],
    second: &[Call<S>],
    first_out: &mut [u8],
    second_out: &mut [u8],
) -> Result<(Settled, Settled), WriterFault>
    ensures does { Settles (B.Book.entries book.now) (requests_of S.AsSlice.items first.now) (requests_of S.AsSlice.items second.now) first_out.old first_out.new second_out.old second_out.new result }
    ensures law { LawOfTheHalls (B.Book.entries book.now) }
    ensures reads { ReadsBackAnywhere (B.Book.entries book.now) }
{
    let one = replay(book, first);
    let other = replay(book, second);
    check_room(&one.card, first_out)?;
    check_room(&other.card, second_out)?;
    Ok((
        write_string(one, first_out),
        write_string(other, second_out),
    ))
}
