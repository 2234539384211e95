// Fields judged alone.
use crate::answer::write_reading;
use crate::case::{Case, Input};
use crate::report::Report;
use desk::undone::{Undone, refused};
use forms::field::Field;
use forms::judge::judge;
use forms::kind::FormKind;
use forms::year::Year;
use std::alloc::Global;
use std::io;

// A field of a form in a year.
struct FieldOf {
    kind: FormKind,
    year: u16,
    field: &'static [u8],
}

const FIELDS: [Case<FieldOf>; 33] = [
    // keys
    Case {
        name: "a trade item",
        input: FieldOf {
            kind: FormKind::Key,
            year: 2026,
            field: b"04841234123457",
        },
        stored: b"04841234123457 key",
    },
    Case {
        name: "a trade item, last digit 8",
        input: FieldOf {
            kind: FormKind::Key,
            year: 2026,
            field: b"04841234123458",
        },
        stored: b"refused 6 field 13",
    },
    Case {
        name: "a logistic unit, its sum 101",
        input: FieldOf {
            kind: FormKind::Key,
            year: 2026,
            field: b"376104250021234569",
        },
        stored: b"376104250021234569 key",
    },
    Case {
        name: "12 digits, first of 5",
        input: FieldOf {
            kind: FormKind::Key,
            year: 2026,
            field: b"000001000054",
        },
        stored: b"000001000054 key",
    },
    Case {
        name: "12 digits, last of 5",
        input: FieldOf {
            kind: FormKind::Key,
            year: 2026,
            field: b"099999000092",
        },
        stored: b"099999000092 key",
    },
    Case {
        name: "12 digits, first of 10",
        input: FieldOf {
            kind: FormKind::Key,
            year: 2026,
            field: b"000010000007",
        },
        stored: b"000010000007 key",
    },
    Case {
        name: "12 digits, last of 10",
        input: FieldOf {
            kind: FormKind::Key,
            year: 2026,
            field: b"099990000091",
        },
        stored: b"099990000091 key",
    },
    Case {
        name: "12 digits, first of 100",
        input: FieldOf {
            kind: FormKind::Key,
            year: 2026,
            field: b"000300000007",
        },
        stored: b"000300000007 key",
    },
    // weights count from the right: in keys of 13 and 17 digits the first digit weighs 1
    Case {
        name: "13 digits",
        input: FieldOf {
            kind: FormKind::Key,
            year: 2026,
            field: b"4841234123457",
        },
        stored: b"4841234123457 key",
    },
    Case {
        name: "13 digits, weighed from the left",
        input: FieldOf {
            kind: FormKind::Key,
            year: 2026,
            field: b"4841234123459",
        },
        stored: b"refused 6 field 12",
    },
    Case {
        name: "17 digits",
        input: FieldOf {
            kind: FormKind::Key,
            year: 2026,
            field: b"48412341234567895",
        },
        stored: b"48412341234567895 key",
    },
    Case {
        name: "17 digits, weighed from the left",
        input: FieldOf {
            kind: FormKind::Key,
            year: 2026,
            field: b"48412341234567891",
        },
        stored: b"refused 6 field 16",
    },
    // centuries
    Case {
        name: "year 76 in 2026",
        input: FieldOf {
            kind: FormKind::Date,
            year: 2026,
            field: b"760930",
        },
        stored: b"760930 date 2076-09-30",
    },
    Case {
        name: "year 77 in 2026",
        input: FieldOf {
            kind: FormKind::Date,
            year: 2026,
            field: b"770930",
        },
        stored: b"770930 date 1977-09-30",
    },
    // ends of February; 2100 has no 29 February
    Case {
        name: "end of February in 2026",
        input: FieldOf {
            kind: FormKind::Date,
            year: 2026,
            field: b"260200",
        },
        stored: b"260228 date 2026-02-28",
    },
    Case {
        name: "29 February 00 in 2026",
        input: FieldOf {
            kind: FormKind::Date,
            year: 2026,
            field: b"000229",
        },
        stored: b"000229 date 2000-02-29",
    },
    Case {
        name: "29 February 00 in 2060",
        input: FieldOf {
            kind: FormKind::Date,
            year: 2060,
            field: b"000229",
        },
        stored: b"refused 7 field 0",
    },
    Case {
        name: "29 February 00 in 2100",
        input: FieldOf {
            kind: FormKind::Date,
            year: 2100,
            field: b"000229",
        },
        stored: b"refused 7 field 0",
    },
    Case {
        name: "end of February 00 in 2100",
        input: FieldOf {
            kind: FormKind::Date,
            year: 2100,
            field: b"000200",
        },
        stored: b"000228 date 2100-02-28",
    },
    // published days and minutes
    Case {
        name: "end of February 2013",
        input: FieldOf {
            kind: FormKind::Date,
            year: 2026,
            field: b"130200",
        },
        stored: b"130228 date 2013-02-28",
    },
    Case {
        name: "end of February 2016",
        input: FieldOf {
            kind: FormKind::Date,
            year: 2026,
            field: b"160200",
        },
        stored: b"160229 date 2016-02-29",
    },
    Case {
        name: "24.12.2006",
        input: FieldOf {
            kind: FormKind::Date,
            year: 2026,
            field: b"061224",
        },
        stored: b"061224 date 2006-12-24",
    },
    Case {
        name: "second of January 2003",
        input: FieldOf {
            kind: FormKind::Date,
            year: 2026,
            field: b"030102",
        },
        stored: b"030102 date 2003-01-02",
    },
    Case {
        name: "second of January 1998",
        input: FieldOf {
            kind: FormKind::Date,
            year: 2026,
            field: b"980102",
        },
        stored: b"980102 date 1998-01-02",
    },
    Case {
        name: "second of January 1997",
        input: FieldOf {
            kind: FormKind::Date,
            year: 2026,
            field: b"970102",
        },
        stored: b"970102 date 1997-01-02",
    },
    Case {
        name: "2 in the afternoon and 15 minutes",
        input: FieldOf {
            kind: FormKind::Stamp,
            year: 2026,
            field: b"0701021415",
        },
        stored: b"0701021415 stamp 2007-01-02 14:15",
    },
    Case {
        name: "2 in the afternoon",
        input: FieldOf {
            kind: FormKind::Stamp,
            year: 2026,
            field: b"0701021400",
        },
        stored: b"0701021400 stamp 2007-01-02 14:00",
    },
    // published weights
    Case {
        name: "5097 kg",
        input: FieldOf {
            kind: FormKind::Measure,
            year: 2026,
            field: b"0005097",
        },
        stored: b"0005097 fraction 509700000",
    },
    Case {
        name: "50.97 kg",
        input: FieldOf {
            kind: FormKind::Measure,
            year: 2026,
            field: b"2005097",
        },
        stored: b"2005097 fraction 5097000",
    },
    Case {
        name: "45.250 kg",
        input: FieldOf {
            kind: FormKind::Measure,
            year: 2026,
            field: b"3045250",
        },
        stored: b"2004525 fraction 4525000",
    },
    Case {
        name: "1234.7 g",
        input: FieldOf {
            kind: FormKind::Measure,
            year: 2026,
            field: b"4012347",
        },
        stored: b"4012347 fraction 123470",
    },
    // a weight of nothing, and a count with zeros in front
    Case {
        name: "no weight, five decimals",
        input: FieldOf {
            kind: FormKind::Measure,
            year: 2026,
            field: b"5000000",
        },
        stored: b"0000000 fraction 0",
    },
    Case {
        name: "seven",
        input: FieldOf {
            kind: FormKind::Count,
            year: 2026,
            field: b"00000007",
        },
        stored: b"7 whole 7",
    },
];

// Its value's writing and value.
impl Input for FieldOf {
    fn run(&self, _heap: Global, came: &mut Vec<u8>) -> Result<(), Undone> {
        let year = Year::new(self.year).unwrap_or(Year::FIRST);
        let mut writing = [0; 30];
        let field = Field {
            bytes: self.field,
            at: 0,
        };
        let reading = judge(self.kind, year, field, &mut writing).map_err(refused)?;
        Ok(write_reading(&reading, &writing, came)?)
    }
}

// Adds the line of each field.
pub fn run(heap: Global, report: &mut Report, out: &mut Vec<u8>) -> io::Result<()> {
    report.all(heap, &FIELDS, out)
}
