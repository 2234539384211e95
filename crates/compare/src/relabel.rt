// A pallet that is labelled again.
ghost use Rattle.std.specs.Prelude.{IfOk};
ghost use Rattle.cards.specs.Cards.{tally};
ghost use Rattle.cards.specs.Strings.{symbols};
ghost use Rattle.compare.specs.Relabels.{Takes, Relabels};

use books::book::Book;
use cards::card::Card;
use desk::writing::{string_of, symbol_of};
use std::alloc::{AllocError, Global};

// Puts the symbol of the number `k` of a card to `fresh`, and says whether it is accepted.
fn takes<B: Book>(
    heap: Global,
    book: &B,
    card: &Card,
    k: usize,
    fresh: &mut Card,
) -> Result<bool, AllocError>
    ensures { IfOk result (λ accepted. Takes (B.Book.entries book.now) (symbols (tally card.now)) k (tally fresh.old) (tally fresh.new) accepted) }
{
    match symbol_of(heap, card, k)? {
        Some(values) => Ok(fresh.take(book, values.as_slice()).is_ok()),
        None => Ok(false),
    }
}

// Whether an empty card of the year of `card` accepts all its symbols, from the last to the first and then from the first to
// the last, and then has that canonical string. It does, where the string is that of the card.
pub fn relabels<B: Book>(
    heap: Global,
    book: &B,
    card: &Card,
    string: &[u8],
) -> Result<bool, AllocError>
    ensures { IfOk result (λ same. Relabels (B.Book.entries book.now) (tally card.now) string.now same) }
{
    let mut fresh = Card::make();
    if fresh.turn(card.year().number()).is_err() {
        return Ok(false);
    }
    let count = card.symbols();
    for k in (0..count).rev().chain(0..count) {
        if !takes(heap, book, card, k, &mut fresh)? {
            return Ok(false);
        }
    }
    let again = string_of(heap, &fresh)?;
    Ok(again.as_slice() == string)
}
