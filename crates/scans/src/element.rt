// One element of a scan.
ghost use Rattle.std.specs.Prelude.{◌≡◌, ℕ, ◌+◌, ◌-◌, ◌^◌, ◌<◌, ◌≤◌, ◌++◌, length, IfSome, IfOk};
ghost use Rattle.books.specs.Entries.{found};
ghost use Rattle.scans.specs.Elements.{run, field_length, gap, front};
ghost use Rattle.scans.specs.Reads.{ReadsFront, Reads};

use crate::fault::ScanFault;
use books::book::Book;
use books::entry::Entry;
use forms::field::Field;
use forms::judge::{Reading, judge};
use forms::year::Year;

// The byte between elements.
pub const SEPARATOR: u8 = 29;

// An element that was read: its entry, what its field means, and the place where the next element begins.
#[derive(Clone, Copy)]
pub struct Element {
    pub entry: Entry,
    pub reading: Reading,
    pub next: usize,
}

// How many bytes stand before the next separator, or the end.
fn until_separator(rest: &[u8]) -> usize
    ensures is { result ≡ run rest.now }
    ensures within { result ≤ length rest.now }
{
    rest.iter().take_while(|b| **b != SEPARATOR).count()
}

// The length of an entry's field that has `n` bytes before the next separator, if it has one.
fn field_length(entry: &Entry, n: usize) -> Option<usize>
    ensures is { result ≡ field_length entry.now n }
    ensures within { IfSome result (λ k. k ≤ n) }
{
    let shortest = usize::from(entry.shortest);
    let longest = usize::from(entry.longest);
    if entry.ident.predefined() {
        (longest <= n).then_some(longest)
    } else {
        (shortest..=longest).contains(&n).then_some(n)
    }
}

// 1 where a separator stands in front, else 0.
fn separator_ahead(rest: &[u8]) -> usize
    ensures is { result ≡ gap rest.now }
    ensures within { result ≤ length rest.now }
{
    usize::from(matches!(rest, [SEPARATOR, ..]))
}

// Reads the element in front of `rest`, which stands at the place `at`. Its value's writing goes over the first bytes of `out`; where
// there is a fault, `out` stays.
fn front_element<B: Book>(
    book: &B,
    year: Year,
    rest: &[u8],
    at: usize,
    out: &mut [u8; 30],
) -> Result<Element, ScanFault>
    requires some { 0 < length rest.now }
    requires places { at + length rest.now < 2 ^ 64 }
    ensures is { ReadsFront (front (B.Book.entries book.now) year.number at rest.now) year.number at out.old out.new result }
    ensures within { IfOk result (λ r. (at < r.next) × (r.next ≤ at + length rest.now)) }
{
    if rest[0] == SEPARATOR {
        return Err(ScanFault::Separator { place: at });
    }
    let Some(entry) = book.find(rest) else {
        return Err(ScanFault::Unknown { place: at });
    };
    let digits = usize::from(entry.ident.digits);
    let after = &rest[digits..];
    let Some(n) = field_length(&entry, until_separator(after)) else {
        return Err(ScanFault::Length { place: at });
    };
    let field = Field {
        bytes: &after[..n],
        at: at + digits,
    };
    let reading = judge(entry.form, year, field, out)?;
    Ok(Element {
        entry,
        reading,
        next: at + digits + n + separator_ahead(&after[n..]),
    })
}

// Kept: book and year by themselves, since a card has the year and its caller the book, and a struct of both would be made anew at each call.
// Reads the element that stands at a place of a scan, or nothing where the scan has ended; its value's writing goes over the first
// bytes of `out`. Where the scan has a fault there, `out` stays.
pub fn next_element<B: Book>(
    book: &B,
    year: Year,
    scan: &[u8],
    at: usize,
    out: &mut [u8; 30],
) -> Result<Option<Element>, ScanFault>
    ensures { Reads (B.Book.entries book.now) year.number at scan.now out.old out.new result }
{
    if at >= scan.len() {
        return Ok(None);
    }
    let element = front_element(book, year, &scan[at..], at, out)?;
    Ok(Some(element))
}
