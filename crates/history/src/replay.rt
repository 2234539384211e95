// A card straight from its making, after a list of calls.
ghost use Rattle.std.specs.Prelude.{◌≡◌};
ghost use Rattle.cards.specs.Cards.{tally};
ghost use Rattle.cards.specs.Tallies.{blank};
ghost use Rattle.history.specs.Requests.{tally_of, refusals};
ghost use Rattle.history.specs.Calls.{requests_of};

use crate::call::obey;
use books::book::Book;
use calls::call::Call;
use cards::card::Card;
use std::convert::AsSlice;

// A card after a list of calls, and how many of them were refused.
#[derive(Clone, Copy)]
pub struct Replayed {
    pub card: Card,
    pub refused: usize,
}

// Makes a card and puts the calls to it, one by one. A refused call leaves the card's tally, and is counted.
pub fn replay<B: Book, S: AsSlice<u8>>(book: &B, calls: &[Call<S>]) -> Replayed
    ensures tally { tally result.card ≡ tally_of (B.Book.entries book.now) (requests_of S.AsSlice.items calls.now) }
    ensures refused { result.refused ≡ refusals (B.Book.entries book.now) (blank 2000) (requests_of S.AsSlice.items calls.now) }
{
    let mut card = Card::make();
    let mut refused = 0;
    for call in calls {
        if obey(&mut card, book, call).is_err() {
            refused += 1;
        }
    }
    Replayed { card, refused }
}
