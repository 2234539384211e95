// Symbols written element by element, and symbols read.
use crate::answer::write_values;
use crate::case::{Case, Input};
use crate::report::Report;
use commands::show::show;
use desk::undone::{Undone, refused};
use std::alloc::Global;
use std::io;
use symbols::reader::decode;
use symbols::writer::{add, begin, seal};

// Elements that are added one after the other.
struct Elements {
    elements: &'static [&'static [u8]],
}

const ADDS: [Case<Elements>; 4] = [
    Case {
        name: "variant",
        input: Elements {
            elements: &[b"2015"],
        },
        stored: b"105 102 20 15 86 106",
    },
    Case {
        name: "best before and lot",
        input: Elements {
            elements: &[b"15260930", b"10AB"],
        },
        stored: b"105 102 15 26 9 30 10 100 33 34 80 106",
    },
    Case {
        name: "add 48 bytes",
        input: Elements {
            elements: &[
                b"00376104250021234569",
                b"0104841234123457",
                b"10ABCDEFGHIJ",
            ],
        },
        stored: b"105 102 0 37 61 4 25 0 21 23 45 69 1 4 84 12 34 12 34 57 10 100 33 34 35 36 37 38 39 40 41 42 62 106",
    },
    Case {
        name: "add 49 bytes",
        input: Elements {
            elements: &[
                b"00376104250021234569",
                b"0104841234123457",
                b"10ABCDEFGHIJK",
            ],
        },
        stored: b"refused 20 symbol 49",
    },
];

// A symbol of a logistic unit, a trade item and a lot, with 48 bytes of data.
pub const LONGEST: &[u8] = &[
    105, 102, 0, 37, 61, 4, 25, 0, 21, 23, 45, 69, 1, 4, 84, 12, 34, 12, 34, 57, 10, 100, 33, 34,
    35, 36, 37, 38, 39, 40, 41, 42, 62, 106,
];

// The same with one byte more in its lot.
pub const TOO_LONG: &[u8] = &[
    105, 102, 0, 37, 61, 4, 25, 0, 21, 23, 45, 69, 1, 4, 84, 12, 34, 12, 34, 57, 10, 100, 33, 34,
    35, 36, 37, 38, 39, 40, 41, 42, 43, 99, 106,
];

// The values of a symbol.
struct Values {
    values: &'static [u8],
}

const READS: [Case<Values>; 2] = [
    Case {
        name: "read 48 bytes",
        input: Values { values: LONGEST },
        stored: b"00376104250021234569010484123412345710ABCDEFGHIJ",
    },
    Case {
        name: "read 49 bytes",
        input: Values { values: TOO_LONG },
        stored: b"refused 20 symbol 32",
    },
];

// The values of their symbol.
impl Input for Elements {
    fn run(&self, heap: Global, came: &mut Vec<u8>) -> Result<(), Undone> {
        let mut buffer = vec![in heap; 0; 100].map_err(io::Error::from)?;
        let mut open = begin(buffer.as_mut_slice()).map_err(refused)?;
        for element in self.elements {
            open = add(open, buffer.as_mut_slice(), element).map_err(|(_, fault)| refused(fault))?;
        }
        let n = seal(open, buffer.as_mut_slice()).map_err(|(_, fault)| refused(fault))?;
        buffer.truncate(n);
        Ok(write_values(buffer.as_slice(), came)?)
    }
}

// Its data.
impl Input for Values {
    fn run(&self, _heap: Global, came: &mut Vec<u8>) -> Result<(), Undone> {
        // Kept: an array and a number, since `decode` writes into memory that is lent to it.
        let mut bytes = [0; 48];
        let n = decode(self.values, &mut bytes).map_err(refused)?;
        show(&bytes[0..n.min(48)], came).map_err(io::Error::from)?;
        Ok(())
    }
}

// Adds the line of each symbol.
pub fn run(heap: Global, report: &mut Report, out: &mut Vec<u8>) -> io::Result<()> {
    report.all(heap, &ADDS, out)?;
    report.all(heap, &READS, out)
}
