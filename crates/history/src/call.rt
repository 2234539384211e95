// How a call is put to a card.
ghost use Rattle.std.specs.Prelude.{◌≡◌, is_ok, is_some};
ghost use Rattle.cards.specs.Cards.{tally};
ghost use Rattle.history.specs.Requests.{answer, after};
ghost use Rattle.history.specs.Calls.{request_of};

use books::book::Book;
use calls::call::Call;
use cards::card::Card;
use forms::refusal::Refusal;
use std::convert::AsSlice;

// Puts a call to a card, and says how many idents came to be held, where the call tells that; a refused one leaves the card's tally.
pub fn obey<B: Book, S: AsSlice<u8>>(
    card: &mut Card,
    book: &B,
    call: &Call<S>,
) -> Result<Option<usize>, Refusal>
    ensures leaves { tally card.new ≡ after (B.Book.entries book.now) (tally card.old) (request_of S.AsSlice.items call.now) }
    ensures says { is_ok result ≡ is_some (answer (B.Book.entries book.now) (tally card.old) (request_of S.AsSlice.items call.now)) }
{
    match call {
        Call::Scan(bytes) => Ok(Some(card.scan(book, bytes.as_slice())?)),
        Call::Take(values) => Ok(Some(card.take(book, values.as_slice())?)),
        Call::Strike(ident) => {
            card.strike(ident.as_slice())?;
            Ok(None)
        }
        Call::Wipe => {
            card.wipe();
            Ok(None)
        }
        Call::Turn(year) => {
            card.turn(*year)?;
            Ok(None)
        }
    }
}
