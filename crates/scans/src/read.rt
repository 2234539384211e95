// A whole scan.
ghost use Rattle.std.specs.Prelude.{◌≡◌};
ghost use Rattle.scans.specs.Elements.{scanned};
ghost use Rattle.scans.specs.Reads.{counted};
ghost use Rattle.scans.specs.Spelling.{ReadAsSpelled};

use crate::element::next_element;
use crate::fault::ScanFault;
use books::book::Book;
use forms::year::Year;

// How many elements a scan has, under a book and in a year, or its first fault.
// A scan is read to a list of elements exactly where it spells them and each field is lawful.
pub fn count_elements<B: Book>(book: &B, year: Year, scan: &[u8]) -> Result<usize, ScanFault>
    ensures is { result ≡ counted 0 (scanned (B.Book.entries book.now) year.number scan.now) }
    ensures spelled { ReadAsSpelled (B.Book.entries book.now) }
{
    let [b']', b'C', b'1', ..] = scan else {
        return Err(ScanFault::NoMark);
    };
    let mut writing = [0; 30];
    let mut at = 3;
    let mut n = 0;
    // Kept: no iterator, since each item would have to carry its place and a copy of its writing, which the loop has at hand.
    while let Some(element) = next_element(book, year, scan, at, &mut writing)? {
        at = element.next;
        n += 1;
    }
    Ok(n)
}
