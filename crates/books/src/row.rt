// A row of a table: what an entry says, lawful or not.
ghost use Rattle.books.specs.Rows.{row_entry};

use crate::entry::Entry;
use crate::ident::Ident;
use crate::spelled::Spelled;
use forms::kind::FormKind;

// How many digits the ident has, its number, the form, and the shortest and the longest length of a field.
#[derive(Clone, Copy)]
pub(crate) struct Row(pub u8, pub u16, pub FormKind, pub u8, pub u8);

impl Spelled for Row {
    ghost spells = { row_entry };

    fn read(&self) -> Option<Entry> {
        let Row(digits, number, form, shortest, longest) = *self;
        Entry::new(Ident::new(digits, number)?, form, shortest, longest)
    }
}
