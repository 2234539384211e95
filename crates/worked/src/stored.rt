// Scans that were worked by hand.
ghost use Rattle.std.specs.Prelude.{◌≡◌};
ghost use Rattle.worked.specs.Scans.{kept, numbered, all};
ghost use Rattle.worked.specs.Cases.{WorkedCases};

// A scan on a card of a year, and what was worked out of it under the GS1 book: how many elements it has, the canonical string of
// a card that has scanned it, and the values of that card's one symbol.
#[derive(Clone, Copy)]
pub struct WorkedScan {
    pub year: u16,
    pub bytes: &'static [u8],
    pub elements: usize,
    pub string: &'static [u8],
    pub symbol: &'static [u8],
}

// The worked scans.
const SCANS: [WorkedScan; 6] = [
    // a weight of nothing
    WorkedScan {
        year: 2000,
        bytes: b"]C13105000000",
        elements: 1,
        string: b"3100000000",
        symbol: &[105, 102, 31, 0, 0, 0, 0, 63, 106],
    },
    // a count with zeros in front
    WorkedScan {
        year: 2000,
        bytes: b"]C13000000007",
        elements: 1,
        string: b"307",
        symbol: &[105, 102, 30, 100, 23, 41, 106],
    },
    // a trade item, its lot and its serial number
    WorkedScan {
        year: 2026,
        bytes: b"]C101048412341234571012345qwert\x1d21asdfghjk",
        elements: 3,
        string: b"01048412341234571012345qwert\x1d21asdfghjk",
        symbol: &[
            105, 102, 1, 4, 84, 12, 34, 12, 34, 57, 10, 12, 34, 100, 21, 81, 87, 69, 82, 84, 102,
            18, 17, 65, 83, 68, 70, 71, 72, 74, 75, 64, 106,
        ],
    },
    // a lot, a weight and a best-before month, in an order that is not canonical
    WorkedScan {
        year: 2026,
        bytes: b"]C110AB\x1d3103001250\x1d15260900",
        elements: 3,
        string: b"15260930310200012510AB",
        symbol: &[
            105, 102, 15, 26, 9, 30, 31, 2, 0, 1, 25, 10, 100, 33, 34, 85, 106,
        ],
    },
    // a variant
    WorkedScan {
        year: 2000,
        bytes: b"]C12015",
        elements: 1,
        string: b"2015",
        symbol: &[105, 102, 20, 15, 86, 106],
    },
    // a best-before date and a lot
    WorkedScan {
        year: 2026,
        bytes: b"]C11526093010AB",
        elements: 2,
        string: b"1526093010AB",
        symbol: &[105, 102, 15, 26, 9, 30, 10, 100, 33, 34, 80, 106],
    },
];

// The worked scan of a number, from 0 on; none behind the last. What it says holds of the definitions, as do the worked cases of
// keys and dates.
pub fn worked_scan(number: usize) -> Option<WorkedScan>
    ensures is { kept result ≡ numbered number all }
    ensures worked { WorkedCases }
{
    SCANS.get(number).copied()
}
