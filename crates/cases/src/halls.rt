// The worked scans that are shown of the definitions, and two halls that read one pallet.
use crate::answer::write_values;
use crate::report::Report;
use books::gs1::Gs1Book;
use calls::call::Call;
use commands::show::show;
use desk::writing::{string_of, symbol_of};
use forms::year::Year;
use history::replay::replay;
use history::settle::settle;
use scans::read::count_elements;
use std::alloc::Global;
use std::io;
use std::io::Write;
use worked::stored::{WorkedScan, worked_scan};

// What is told of a scan: how many elements it has, a canonical string, how many symbols there are and the values of one.
#[derive(Clone, Copy)]
struct Account<'a> {
    elements: usize,
    string: &'a [u8],
    symbols: usize,
    values: &'a [u8],
}

impl Account<'_> {
    // Adds it.
    fn write(&self, came: &mut Vec<u8>) -> io::Result<()> {
        let elements = self.elements;
        let symbols = self.symbols;
        write!(came, "{elements}, ")?;
        show(self.string, came)?;
        write!(came, ", {symbols}: ")?;
        write_values(self.values, came)
    }
}

// Adds what comes of a worked scan: counted, and put to a card that is turned to the year before.
fn tell_scan(heap: Global, case: &WorkedScan, came: &mut Vec<u8>) -> io::Result<()> {
    let year = Year::new(case.year).unwrap_or(Year::FIRST);
    let Ok(elements) = count_elements(&Gs1Book, year, case.bytes) else {
        return write!(came, "no scan");
    };
    let replayed = replay(&Gs1Book, &[Call::Turn(case.year), Call::Scan(case.bytes)]);
    if replayed.refused != 0 {
        return write!(came, "refused");
    }
    let string = string_of(heap, &replayed.card)?;
    let Some(values) = symbol_of(heap, &replayed.card, 0)? else {
        return write!(came, "no symbol");
    };
    let told = Account {
        elements,
        string: string.as_slice(),
        symbols: replayed.card.symbols(),
        values: values.as_slice(),
    };
    told.write(came)
}

// Adds the canonical strings of two halls that read one pallet in scans of their own.
// Kept: beside that of `compare`, which keeps calls and whole strings; two short buffers are all that this case needs.
fn settled(heap: Global, came: &mut Vec<u8>) -> io::Result<()> {
    let mut one = vec![in heap; 0; 64]?;
    let mut other = vec![in heap; 0; 64]?;
    let first: [Call<&[u8]>; 2] = [
        Call::Turn(2026),
        Call::Scan(b"]C110AB\x1d3103001250\x1d15260900"),
    ];
    let second: [Call<&[u8]>; 3] = [
        Call::Turn(2026),
        Call::Scan(b"]C11526093010AB"),
        Call::Scan(b"]C13102000125"),
    ];
    let Ok((left, right)) = settle(
        &Gs1Book,
        &first,
        &second,
        one.as_mut_slice(),
        other.as_mut_slice(),
    ) else {
        return write!(came, "a longer string");
    };
    one.truncate(left.len);
    other.truncate(right.len);
    show(one.as_slice(), came)?;
    write!(came, ", ")?;
    show(other.as_slice(), came)?;
    Ok(())
}

// Adds the line of each worked scan, and that of the two halls.
pub fn run(heap: Global, report: &mut Report, out: &mut Vec<u8>) -> io::Result<()> {
    for number in 0..6 {
        let Some(case) = worked_scan(number) else {
            break;
        };
        let mut came = Vec::new(heap);
        tell_scan(heap, &case, &mut came)?;
        let mut stored = Vec::new(heap);
        let known = Account {
            elements: case.elements,
            string: case.string,
            symbols: 1,
            values: case.symbol,
        };
        known.write(&mut stored)?;
        let mut name = Vec::new(heap);
        show(case.bytes, &mut name)?;
        report.line_named(name.as_slice(), came.as_slice(), stored.as_slice(), out)?;
    }
    let mut came = Vec::new(heap);
    settled(heap, &mut came)?;
    report.line(
        "two halls",
        came.as_slice(),
        b"15260930310200012510AB, 15260930310200012510AB",
        out,
    )
}
