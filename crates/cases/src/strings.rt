// Scans on a new card, and the canonical string.
use crate::answer::write_string;
use crate::case::{Case, Input};
use crate::report::Report;
use books::book::Book;
use books::gs1::Gs1Book;
use books::hall::HallBook;
use cards::card::Card;
use desk::undone::{Undone, refused};
use std::alloc::Global;
use std::io;

// A scan on a new card of a year under the GS1 book.
struct Gs1Scan {
    year: u16,
    scan: &'static [u8],
}

const STRINGS: [Case<Gs1Scan>; 32] = [
    // published elements
    Case {
        name: "logistic unit",
        input: Gs1Scan {
            year: 2026,
            scan: b"]C100376104250021234569",
        },
        stored: b"00376104250021234569",
    },
    Case {
        name: "net weight 5097 kg",
        input: Gs1Scan {
            year: 2026,
            scan: b"]C13100005097",
        },
        stored: b"3100005097",
    },
    Case {
        name: "net weight 50.97 kg",
        input: Gs1Scan {
            year: 2026,
            scan: b"]C13102005097",
        },
        stored: b"3102005097",
    },
    Case {
        name: "net weight 45.250 kg",
        input: Gs1Scan {
            year: 2026,
            scan: b"]C13103045250",
        },
        stored: b"3102004525",
    },
    Case {
        name: "net weight 1234.7 g",
        input: Gs1Scan {
            year: 2026,
            scan: b"]C13104012347",
        },
        stored: b"3104012347",
    },
    // weights count from the right
    Case {
        name: "13 digits under 410",
        input: Gs1Scan {
            year: 2026,
            scan: b"]C14104841234123457",
        },
        stored: b"4104841234123457",
    },
    Case {
        name: "the same, weighed from the left",
        input: Gs1Scan {
            year: 2026,
            scan: b"]C14104841234123459",
        },
        stored: b"refused 6 field 18",
    },
    // published elements whose idents the book has no entry for
    Case {
        name: "lot of seven digits",
        input: Gs1Scan {
            year: 2026,
            scan: b"]C12331234567",
        },
        stored: b"refused 3 scan 3",
    },
    Case {
        name: "amount 3902 1234567",
        input: Gs1Scan {
            year: 2026,
            scan: b"]C139021234567",
        },
        stored: b"refused 3 scan 3",
    },
    Case {
        name: "amount 3901 1234567",
        input: Gs1Scan {
            year: 2026,
            scan: b"]C139011234567",
        },
        stored: b"refused 3 scan 3",
    },
    Case {
        name: "amount 3900 12345",
        input: Gs1Scan {
            year: 2026,
            scan: b"]C1390012345",
        },
        stored: b"refused 3 scan 3",
    },
    Case {
        name: "amount 3912 7101230",
        input: Gs1Scan {
            year: 2026,
            scan: b"]C139127101230",
        },
        stored: b"refused 3 scan 3",
    },
    Case {
        name: "amount 3911 7101230",
        input: Gs1Scan {
            year: 2026,
            scan: b"]C139117101230",
        },
        stored: b"refused 3 scan 3",
    },
    Case {
        name: "amount 3910 978123",
        input: Gs1Scan {
            year: 2026,
            scan: b"]C13910978123",
        },
        stored: b"refused 3 scan 3",
    },
    Case {
        name: "amount 3910 040123",
        input: Gs1Scan {
            year: 2026,
            scan: b"]C13910040123",
        },
        stored: b"refused 3 scan 3",
    },
    Case {
        name: "amount 3912 643123000",
        input: Gs1Scan {
            year: 2026,
            scan: b"]C13912643123000",
        },
        stored: b"refused 3 scan 3",
    },
    Case {
        name: "amount 3922 1234567",
        input: Gs1Scan {
            year: 2026,
            scan: b"]C139221234567",
        },
        stored: b"refused 3 scan 3",
    },
    Case {
        name: "amount 3921 1234567",
        input: Gs1Scan {
            year: 2026,
            scan: b"]C139211234567",
        },
        stored: b"refused 3 scan 3",
    },
    Case {
        name: "amount 3920 12345",
        input: Gs1Scan {
            year: 2026,
            scan: b"]C1392012345",
        },
        stored: b"refused 3 scan 3",
    },
    Case {
        name: "amount 3932 7101230",
        input: Gs1Scan {
            year: 2026,
            scan: b"]C139327101230",
        },
        stored: b"refused 3 scan 3",
    },
    Case {
        name: "amount 3931 7101230",
        input: Gs1Scan {
            year: 2026,
            scan: b"]C139317101230",
        },
        stored: b"refused 3 scan 3",
    },
    Case {
        name: "amount 3930 978123",
        input: Gs1Scan {
            year: 2026,
            scan: b"]C13930978123",
        },
        stored: b"refused 3 scan 3",
    },
    Case {
        name: "amount 3930 040123",
        input: Gs1Scan {
            year: 2026,
            scan: b"]C13930040123",
        },
        stored: b"refused 3 scan 3",
    },
    Case {
        name: "amount 3932 643123000",
        input: Gs1Scan {
            year: 2026,
            scan: b"]C13932643123000",
        },
        stored: b"refused 3 scan 3",
    },
    // a fixed length is not a predefined one: a separator has to stand before the next element
    Case {
        name: "402 and a separator",
        input: Gs1Scan {
            year: 2026,
            scan: b"]C140248412341234567895\x1d10A",
        },
        stored: b"10A^40248412341234567895",
    },
    Case {
        name: "402 and none",
        input: Gs1Scan {
            year: 2026,
            scan: b"]C14024841234123456789510A",
        },
        stored: b"refused 4 scan 3",
    },
    Case {
        name: "422 and a separator",
        input: Gs1Scan {
            year: 2026,
            scan: b"]C1422276\x1d10A",
        },
        stored: b"10A^422276",
    },
    Case {
        name: "422 and none",
        input: Gs1Scan {
            year: 2026,
            scan: b"]C142227610A",
        },
        stored: b"refused 4 scan 3",
    },
    Case {
        name: "7003 and a separator",
        input: Gs1Scan {
            year: 2026,
            scan: b"]C170032609301430\x1d10A",
        },
        stored: b"10A^70032609301430",
    },
    Case {
        name: "7003 and none",
        input: Gs1Scan {
            year: 2026,
            scan: b"]C17003260930143010A",
        },
        stored: b"refused 4 scan 3",
    },
    Case {
        name: "8005 and a separator",
        input: Gs1Scan {
            year: 2026,
            scan: b"]C18005001234\x1d10A",
        },
        stored: b"10A^8005001234",
    },
    Case {
        name: "8005 and none",
        input: Gs1Scan {
            year: 2026,
            scan: b"]C1800500123410A",
        },
        stored: b"refused 4 scan 3",
    },
];

// A scan on a new card under a hall's book of these words.
struct HallScan {
    words: &'static [u32],
    scan: &'static [u8],
}

const HALLS: [Case<HallScan>; 4] = [
    Case {
        name: "ident 91, text of 1 to 30 bytes",
        input: HallScan {
            words: &[134963696],
            scan: b"]C191A",
        },
        stored: b"91A",
    },
    Case {
        name: "ident 91 alone",
        input: HallScan {
            words: &[134963696],
            scan: b"]C110A",
        },
        stored: b"refused 3 scan 3",
    },
    Case {
        name: "ident 91 twice",
        input: HallScan {
            words: &[134963696, 134963696],
            scan: b"]C191A",
        },
        stored: b"refused 22 book 1",
    },
    Case {
        name: "no entry",
        input: HallScan {
            words: &[0],
            scan: b"]C191A",
        },
        stored: b"refused 21 book 0",
    },
];

// Scans on the card, and adds its canonical string.
fn file<B: Book>(
    heap: Global,
    mut card: Card,
    book: &B,
    scan: &[u8],
    came: &mut Vec<u8>,
) -> Result<(), Undone> {
    card.scan(book, scan).map_err(refused)?;
    Ok(write_string(heap, &card, came)?)
}

// The canonical string.
impl Input for Gs1Scan {
    fn run(&self, heap: Global, came: &mut Vec<u8>) -> Result<(), Undone> {
        let mut card = Card::make();
        card.turn(self.year).map_err(refused)?;
        file(heap, card, &Gs1Book, self.scan, came)
    }
}

// The canonical string, where the words are a book.
impl Input for HallScan {
    fn run(&self, heap: Global, came: &mut Vec<u8>) -> Result<(), Undone> {
        let mut book = HallBook::empty();
        book.load(self.words).map_err(refused)?;
        file(heap, Card::make(), &book, self.scan, came)
    }
}

// Adds the line of each scan.
pub fn run(heap: Global, report: &mut Report, out: &mut Vec<u8>) -> io::Result<()> {
    report.all(heap, &STRINGS, out)?;
    report.all(heap, &HALLS, out)
}
