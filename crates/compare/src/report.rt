// What becomes of two cards, as text.
use crate::filed::{Filed, settle_calls};
use crate::relabel::relabels;
use crate::verdict::Verdict;
use books::book::Book;
use calls::call::Call;
use commands::error::Failure;
use commands::hall::Hall;
use commands::show::show;
use desk::refusal::write_refusal;
use std::alloc::Global;
use std::io;
use std::io::Write;

// Adds the two lines of a hall: its calls and its card, and the card's canonical string.
fn write_hall(hall: Hall, calls: usize, filed: &Filed, out: &mut Vec<u8>) -> io::Result<()> {
    let refused = filed.refused;
    let year = filed.card.year().number();
    let held = filed.card.count();
    writeln!(
        out,
        "{hall} calls {calls} refused {refused} year {year} held {held}"
    )?;
    write!(out, "{hall} string ")?;
    show(filed.string.as_slice(), out)?;
    writeln!(out)
}

// Adds what an empty card makes of all symbols of a hall's card.
fn write_relabelled<B: Book>(
    heap: Global,
    book: &B,
    hall: Hall,
    filed: &Filed,
    out: &mut Vec<u8>,
) -> io::Result<()> {
    let count = filed.card.symbols();
    let verdict = if relabels(heap, book, &filed.card, filed.string.as_slice())? {
        Verdict::Same
    } else {
        Verdict::Different
    };
    writeln!(out, "{hall} relabelled {count} {verdict}")
}

// Puts the calls of each hall to a card of its own, and adds what became of the two.
pub fn write_report<B: Book>(
    heap: Global,
    book: &B,
    first_calls: &[Call<Vec<u8>>],
    second_calls: &[Call<Vec<u8>>],
    out: &mut Vec<u8>,
) -> io::Result<()> {
    let (first, second) = match settle_calls(heap, book, first_calls, second_calls) {
        Ok(both) => both,
        Err(Failure::Refused(fault)) => {
            write_refusal(heap, &fault, out)?;
            return writeln!(out);
        }
        Err(Failure::Memory(lack)) => return Err(lack.into()),
    };
    write_hall(Hall::First, first_calls.len(), &first, out)?;
    write_hall(Hall::Second, second_calls.len(), &second, out)?;
    let verdict = Verdict::of(
        first.card.year().number(),
        second.card.year().number(),
        first.string.as_slice(),
        second.string.as_slice(),
    );
    writeln!(out, "{verdict}")?;
    write_relabelled(heap, book, Hall::First, &first, out)?;
    write_relabelled(heap, book, Hall::Second, &second, out)
}
