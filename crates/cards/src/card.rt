// The card of a lane.
ghost use Rattle.std.specs.Prelude.{◌≡◌, ◌≤◌, T, length};
ghost use Rattle.cards.specs.Rows.{first_held};
ghost use Rattle.cards.specs.Regular.{regular};

use crate::row::Row;
use forms::year::Year;

// A card: a year, and at most 32 elements in canonical order, of which no ident equals or begins another, each lawful in the year.
// It owns its memory, and asks for none.
// Kept: an array with the number of rows in use beside it, since a card is fixed memory.
#[derive(Clone, Copy)]
pub struct Card {
    pub(crate) year: Year,
    pub(crate) len: usize,
    pub(crate) rows: [Row; 32],
    ghost long: { length rows ≡ 32 },
    ghost within: { len ≤ 32 },
    ghost kept: { T (regular year.number (first_held len rows)) },
}
