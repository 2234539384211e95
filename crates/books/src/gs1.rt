// The book of the GS1 Application Identifiers.
ghost use Rattle.std.specs.Prelude.{◌≡◌, length};
ghost use Rattle.books.specs.Rules.{Ruled};
ghost use Rattle.books.specs.Table.{table};

use crate::book::Book;
use crate::entry::Entry;
use crate::row::Row;
use crate::spelled::look;
use forms::kind::FormKind;

// By their digits as text.
const TABLE: [Row; 69] = [
    Row(2, 0, FormKind::Key, 18, 18),
    Row(2, 1, FormKind::Key, 14, 14),
    Row(2, 2, FormKind::Key, 14, 14),
    Row(2, 10, FormKind::Text, 1, 20),
    Row(2, 11, FormKind::Date, 6, 6),
    Row(2, 12, FormKind::Date, 6, 6),
    Row(2, 13, FormKind::Date, 6, 6),
    Row(2, 15, FormKind::Date, 6, 6),
    Row(2, 17, FormKind::Date, 6, 6),
    Row(2, 20, FormKind::Digits, 2, 2),
    Row(2, 21, FormKind::Text, 1, 20),
    Row(3, 240, FormKind::Text, 1, 30),
    Row(3, 241, FormKind::Text, 1, 30),
    Row(3, 250, FormKind::Text, 1, 30),
    Row(3, 251, FormKind::Text, 1, 30),
    Row(2, 30, FormKind::Count, 1, 8),
    Row(3, 310, FormKind::Measure, 7, 7),
    Row(3, 311, FormKind::Measure, 7, 7),
    Row(3, 312, FormKind::Measure, 7, 7),
    Row(3, 313, FormKind::Measure, 7, 7),
    Row(3, 314, FormKind::Measure, 7, 7),
    Row(3, 315, FormKind::Measure, 7, 7),
    Row(3, 316, FormKind::Measure, 7, 7),
    Row(3, 320, FormKind::Measure, 7, 7),
    Row(3, 321, FormKind::Measure, 7, 7),
    Row(3, 322, FormKind::Measure, 7, 7),
    Row(3, 323, FormKind::Measure, 7, 7),
    Row(3, 324, FormKind::Measure, 7, 7),
    Row(3, 325, FormKind::Measure, 7, 7),
    Row(3, 326, FormKind::Measure, 7, 7),
    Row(3, 327, FormKind::Measure, 7, 7),
    Row(3, 328, FormKind::Measure, 7, 7),
    Row(3, 329, FormKind::Measure, 7, 7),
    Row(3, 350, FormKind::Measure, 7, 7),
    Row(3, 351, FormKind::Measure, 7, 7),
    Row(3, 352, FormKind::Measure, 7, 7),
    Row(3, 356, FormKind::Measure, 7, 7),
    Row(3, 357, FormKind::Measure, 7, 7),
    Row(3, 360, FormKind::Measure, 7, 7),
    Row(3, 361, FormKind::Measure, 7, 7),
    Row(3, 364, FormKind::Measure, 7, 7),
    Row(3, 365, FormKind::Measure, 7, 7),
    Row(3, 366, FormKind::Measure, 7, 7),
    Row(2, 37, FormKind::Count, 1, 8),
    Row(3, 400, FormKind::Text, 1, 30),
    Row(3, 401, FormKind::Text, 1, 30),
    Row(3, 402, FormKind::Key, 17, 17),
    Row(3, 403, FormKind::Text, 1, 30),
    Row(3, 410, FormKind::Key, 13, 13),
    Row(3, 411, FormKind::Key, 13, 13),
    Row(3, 412, FormKind::Key, 13, 13),
    Row(3, 413, FormKind::Key, 13, 13),
    Row(3, 414, FormKind::Key, 13, 13),
    Row(3, 415, FormKind::Key, 13, 13),
    Row(3, 420, FormKind::Text, 1, 20),
    Row(3, 422, FormKind::Digits, 3, 3),
    Row(4, 7003, FormKind::Stamp, 10, 10),
    Row(4, 8005, FormKind::Digits, 6, 6),
    Row(4, 8020, FormKind::Text, 1, 25),
    Row(2, 90, FormKind::Text, 1, 30),
    Row(2, 91, FormKind::Text, 1, 30),
    Row(2, 92, FormKind::Text, 1, 30),
    Row(2, 93, FormKind::Text, 1, 30),
    Row(2, 94, FormKind::Text, 1, 30),
    Row(2, 95, FormKind::Text, 1, 30),
    Row(2, 96, FormKind::Text, 1, 30),
    Row(2, 97, FormKind::Text, 1, 30),
    Row(2, 98, FormKind::Text, 1, 30),
    Row(2, 99, FormKind::Text, 1, 30),
];

// The GS1 book.
#[derive(Clone, Copy)]
pub struct Gs1Book;

impl Gs1Book {
    // How many entries it has, which are those of the rules and no others.
    pub fn count(&self) -> usize
        ensures number { result ≡ 69 }
        ensures entries { result ≡ length table }
        ensures ruled { Ruled }
    {
        TABLE.len()
    }
}

impl Book for Gs1Book {
    ghost entries = { λ _. table };

    ghost lawful = { λ _. tt };

    ghost apart = { λ _. tt };

    fn find(&self, shown: &[u8]) -> Option<Entry> {
        look(&TABLE, shown)
    }
}
