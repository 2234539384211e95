// A 32-bit word that spells an entry: from the top 3 bits the form, 2 the number of its ident's digits less one,
// 14 the ident as a number, 5 the shortest length of a field and 5 the longest, and 3 bits that are zero.
ghost use Rattle.std.specs.Prelude.{◌≡◌};
ghost use Rattle.books.specs.Words.{form_of, word_entry};

use crate::entry::Entry;
use crate::row::Row;
use crate::spelled::Spelled;
use forms::kind::FormKind;

// The form of a code from 0 to 6.
fn form_of(code: u32) -> Option<FormKind>
    ensures { result ≡ form_of code }
{
    FormKind::ALL.get(code as usize).copied()
}

impl Spelled for u32 {
    ghost spells = { word_entry };

    fn read(&self) -> Option<Entry> {
        let word = *self;
        if word % 8 != 0 {
            return None;
        }
        let row = Row(
            (word >> 27) as u8 % 4 + 1,
            ((word >> 13) % 0x4000) as u16,
            form_of(word >> 29)?,
            ((word >> 8) % 32) as u8,
            ((word >> 3) % 32) as u8,
        );
        row.read()
    }
}
