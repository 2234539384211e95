// What a card holds.
ghost use Rattle.std.specs.Prelude.{◌≡◌, ◌++◌, length, drop};
ghost use Rattle.forms.specs.Values.{written};
ghost use Rattle.cards.specs.Rows.{held_in};
ghost use Rattle.cards.specs.Cards.{held_by};
ghost use Rattle.cards.specs.Looks.{Tells, Looks, Shows};

use crate::card::Card;
use crate::row::Row;
use crate::search::place_of;
use books::ident::Ident;
use forms::judge::Reading;
use forms::value::Value;
use forms::year::Year;

impl Row {
    // Writes the value's writing over the first bytes of `text`, and says how many it wrote.
    fn write(&self, text: &mut [u8; 30]) -> usize
        ensures long { result ≡ length (written (held_in self.now).value) }
        ensures wrote { text.new ≡ written (held_in self.now).value ++ drop result text.old }
    {
        let writing = self.writing();
        text[0..writing.len()].copy_from_slice(writing);
        writing.len()
    }

    // The value; a text's bytes go over the first bytes of `text`, at any other value `text` stays.
    fn tell(&self, text: &mut [u8; 30]) -> Value
        ensures { Tells self.now text.old text.new result }
    {
        if let Value::Text { len } = self.value {
            self.write(text);
            return Value::Text { len };
        }
        self.value
    }
}

impl Card {
    // The value that is held under an ident, or none. A text's bytes go over the first bytes of `text`, else `text` stays.
    pub fn look(&self, ident: &[u8], text: &mut [u8; 30]) -> Option<Value>
        ensures { Looks ident.now (held_by self.now) text.old text.new result }
    {
        let place = place_of(self.held(), ident)?;
        Some(self.rows[place].tell(text))
    }

    // How many elements are held.
    pub fn count(&self) -> usize
        ensures { result ≡ length (held_by self.now) }
    {
        self.len
    }

    // The year.
    pub fn year(&self) -> Year
        ensures { result ≡ self.now.year }
    {
        self.year
    }

    // The element at a place in canonical order: its ident and its value, whose writing goes over the first bytes of `text`;
    // or none, and `text` stays.
    pub fn element(&self, place: usize, text: &mut [u8; 30]) -> Option<(Ident, Reading)>
        ensures { Shows place (held_by self.now) text.old text.new result }
    {
        let row = self.held().get(place)?;
        let len = row.write(text);
        Some((
            row.entry.ident,
            Reading {
                value: row.value,
                len,
            },
        ))
    }
}
