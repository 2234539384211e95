// Calls on a card, one after the other, and what the last of them answers.
use crate::case::{Case, Input};
use crate::labels::{LONGEST, TOO_LONG};
use crate::report::Report;
use books::gs1::Gs1Book;
use calls::call::Call;
use cards::card::Card;
use desk::undone::Undone;
use forms::refusal::Refusal;
use history::call::obey;
use std::alloc::Global;
use std::io;
use std::io::Write;

// Calls on a new card, behind others that bring it to where they begin.
struct Calls {
    before: &'static [Call<&'static [u8]>],
    calls: &'static [Call<&'static [u8]>],
}

// Scans that bring 32 elements: 27 measures and 5 dates.
const FULL: [Call<&'static [u8]>; 5] = [
    Call::Scan(b"]C13100000001311000000131200000013130000001314000000131500000013160000001"),
    Call::Scan(
        b"]C13200000001321000000132200000013230000001324000000132500000013260000001327000000132800000013290000001",
    ),
    Call::Scan(b"]C135000000013510000001352000000135600000013570000001"),
    Call::Scan(b"]C136000000013610000001364000000136500000013660000001"),
    Call::Scan(b"]C11126093012260930132609301526093017260930"),
];

const CALLS: [Case<Calls>; 11] = [
    // the last year, and the one behind it
    Case {
        name: "turn 2199",
        input: Calls {
            before: &[],
            calls: &[Call::Turn(2199)],
        },
        stored: b"ok",
    },
    Case {
        name: "turn 2200",
        input: Calls {
            before: &[],
            calls: &[Call::Turn(2200)],
        },
        stored: b"refused 13 card 0",
    },
    // the span of a date
    Case {
        name: "turn 2075, 30 September 2026 held",
        input: Calls {
            before: &[],
            calls: &[
                Call::Turn(2026),
                Call::Scan(b"]C115260930"),
                Call::Turn(2075),
            ],
        },
        stored: b"ok",
    },
    Case {
        name: "turn 2076, 30 September 2026 held",
        input: Calls {
            before: &[],
            calls: &[
                Call::Turn(2026),
                Call::Scan(b"]C115260930"),
                Call::Turn(2076),
            ],
        },
        stored: b"refused 14 card 0",
    },
    // symbols of 48 and of 49 bytes
    Case {
        name: "take 48 bytes",
        input: Calls {
            before: &[],
            calls: &[Call::Take(LONGEST)],
        },
        stored: b"ok 3",
    },
    Case {
        name: "take 49 bytes",
        input: Calls {
            before: &[],
            calls: &[Call::Take(TOO_LONG)],
        },
        stored: b"refused 20 symbol 32",
    },
    Case {
        name: "take a variant",
        input: Calls {
            before: &[],
            calls: &[Call::Take(&[105, 102, 20, 15, 86, 106])],
        },
        stored: b"ok 1",
    },
    // a struck element makes room: FULL holds 32
    Case {
        name: "32 held, one again",
        input: Calls {
            before: &FULL,
            calls: &[Call::Scan(b"]C13100000001")],
        },
        stored: b"ok 0",
    },
    Case {
        name: "32 held, a 33rd",
        input: Calls {
            before: &FULL,
            calls: &[Call::Scan(b"]C12015")],
        },
        stored: b"refused 11 card 3",
    },
    Case {
        name: "32 held, one struck, another",
        input: Calls {
            before: &FULL,
            calls: &[Call::Strike(b"310"), Call::Scan(b"]C12015")],
        },
        stored: b"ok 1",
    },
    Case {
        name: "32 held, the struck one again",
        input: Calls {
            before: &FULL,
            calls: &[
                Call::Strike(b"310"),
                Call::Scan(b"]C12015"),
                Call::Scan(b"]C13100000001"),
            ],
        },
        stored: b"refused 11 card 3",
    },
];

// Puts calls to a card, and says what the last of them answers.
fn put_all(card: &mut Card, calls: &[Call<&[u8]>]) -> Result<Option<usize>, Refusal> {
    let mut last = Ok(None);
    for call in calls {
        last = obey(card, &Gs1Book, call);
    }
    last
}

// What the last call answers.
impl Input for Calls {
    fn run(&self, _heap: Global, came: &mut Vec<u8>) -> Result<(), Undone> {
        let mut card = Card::make();
        put_all(&mut card, self.before)?;
        match put_all(&mut card, self.calls)? {
            Some(n) => write!(came, "ok {n}")?,
            None => write!(came, "ok")?,
        }
        Ok(())
    }
}

// Adds the line of each list of calls.
pub fn run(heap: Global, report: &mut Report, out: &mut Vec<u8>) -> io::Result<()> {
    report.all(heap, &CALLS, out)
}
