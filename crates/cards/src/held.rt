// What is in use of a card, and of a row.
ghost use Rattle.std.specs.Prelude.{◌≡◌, take};
ghost use Rattle.forms.specs.Values.{written};
ghost use Rattle.cards.specs.Rows.{held_in};

use crate::card::Card;
use crate::row::Row;

impl Card {
    // The rows in use.
    pub(crate) fn held(&self) -> &[Row]
        ensures { result.now ≡ take self.now.len self.now.rows }
    {
        &self.rows[0..self.len]
    }
}

impl Row {
    // The writing of the value.
    pub(crate) fn writing(&self) -> &[u8]
        ensures { result.now ≡ written (held_in self.now).value }
    {
        &self.text[0..usize::from(self.len)]
    }
}
