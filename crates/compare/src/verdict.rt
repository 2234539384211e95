// What comes of two cards beside each other.
ghost use Rattle.std.specs.Prelude.{Some};
ghost use Rattle.compare.specs.Verdicts.{Judges, verdict_text};

use std::fmt;

// What comes of two cards beside each other.
#[derive(Clone, Copy)]
pub enum Verdict {
    // in one year their canonical strings are equal
    Same,
    // in one year their canonical strings differ
    Different,
    // they stand in two years
    YearsDiffer,
}

impl Verdict {
    // The verdict on two cards of these years and canonical strings.
    pub fn of(first_year: u16, second_year: u16, first: &[u8], second: &[u8]) -> Verdict
        ensures { Judges first_year second_year first.now second.now result }
    {
        if first_year != second_year {
            Verdict::YearsDiffer
        } else if first == second {
            Verdict::Same
        } else {
            Verdict::Different
        }
    }
}

// Writes how it is told.
impl fmt::Display for Verdict {
    ghost output = { λ verdict. Some (verdict_text verdict) };

    fn fmt<W: fmt::Write>(&self, f: &mut fmt::Formatter<W>) -> fmt::Result {
        f.write_str(match self {
            Verdict::Same => "same",
            Verdict::Different => "different",
            Verdict::YearsDiffer => "years differ",
        })
    }
}
