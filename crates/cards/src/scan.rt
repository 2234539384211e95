// Scans and symbols that are put on a card.
ghost use Rattle.std.specs.Prelude.{◌≡◌, ℕ, ◌≤◌, true, ◌++◌, length, take};
ghost use Rattle.buffers.specs.Shown.{shown};
ghost use Rattle.forms.specs.Bytes.{allowed, every};
ghost use Rattle.forms.specs.Values.{told, written};
ghost use Rattle.scans.specs.Elements.{mark};
ghost use Rattle.cards.specs.Rows.{held_in};
ghost use Rattle.cards.specs.Cards.{tally};
ghost use Rattle.cards.specs.Outcomes.{scan_outcome, take_outcome};
ghost use Rattle.cards.specs.Answers.{Puts, PutsOn};
ghost use Rattle.cards.specs.Adding.{ScanLaw};

use crate::card::Card;
use crate::row::Row;
use crate::strings::put;
use books::book::Book;
use books::entry::Entry;
use buffers::buffer::Buffer;
use forms::judge::Reading;
use scans::element::next_element;
use scans::fault::ScanFault;
use symbols::fault::SymbolFault;
use symbols::reader::decode;

// The row of an element that was read, beside its writing.
fn row_of(entry: Entry, reading: Reading, text: [u8; 30]) -> Row
    requires short { reading.len ≤ 30 }
    requires long { length text ≡ 30 }
    requires wrote { take reading.len text ≡ written (told reading.value text) }
    requires least { entry.shortest ≤ reading.len }
    requires most { reading.len ≤ entry.longest }
    requires plain { every allowed (take reading.len text) ≡ true }
    ensures { held_in result ≡ record { entry = entry; value = told reading.value text } }
{
    Row {
        entry,
        value: reading.value,
        text,
        len: reading.len as u8,
    }
}

// The bytes of a symbol's data behind `]C1`.
fn behind_mark(bytes: &[u8]) -> Buffer<51>
    requires { length bytes.now ≤ 48 }
    ensures { shown result ≡ mark ++ bytes.now }
{
    let mut scan = Buffer::new();
    put(&mut scan, b"]C1");
    put(&mut scan, bytes);
    scan
}

impl Card {
    // Puts the elements of a scan on the card, one after the other, and says how many idents came to be held.
    fn put_all<B: Book>(&mut self, book: &B, scan: &[u8]) -> Result<usize, ScanFault>
        ensures { PutsOn (scan_outcome (B.Book.entries book.now) (tally self.old) scan.now) self.old self.new result }
    {
        let [b']', b'C', b'1', ..] = scan else {
            return Err(ScanFault::NoMark);
        };
        let year = self.year;
        let mut text = [0; 30];
        let mut at = 3;
        let mut new = 0;
        // Kept: no iterator, since each item would have to carry its place and a copy of its writing, which the loop has at hand.
        while let Some(element) = next_element(book, year, scan, at, &mut text)? {
            new += self.put(row_of(element.entry, element.reading, text), at)?;
            at = element.next;
        }
        Ok(new)
    }

    // Puts all elements of a scan on the card, and says how many idents came to be held that were not; or refuses, and the card is
    // as it was. An accepted scan adds the elements that it spells and nothing else; a refused one tells the first reason.
    pub fn scan<B: Book>(&mut self, book: &B, scan: &[u8]) -> Result<usize, ScanFault>
        ensures is { Puts (scan_outcome (B.Book.entries book.now) (tally self.old) scan.now) self.old self.new result }
        ensures law { ScanLaw (B.Book.entries book.now) }
    {
        let mut card = *self;
        let new = card.put_all(book, scan)?;
        *self = card;
        Ok(new)
    }

    // Puts all elements of a symbol's data on the card, as a scan of them would; or refuses, and the card is as it was.
    pub fn take<B: Book>(&mut self, book: &B, values: &[u8]) -> Result<usize, SymbolFault>
        ensures { Puts (take_outcome (B.Book.entries book.now) (tally self.old) values.now) self.old self.new result }
    {
        // Kept: an array and a number, since `decode` writes into memory that is lent to it.
        let mut bytes = [0; 48];
        let n = decode(values, &mut bytes)?;
        let scan = behind_mark(&bytes[0..n]);
        Ok(self.scan(book, scan.as_slice())?)
    }
}
