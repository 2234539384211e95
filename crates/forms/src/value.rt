// Values: what a lawful field means.
ghost use Rattle.std.specs.Prelude.{Some};
ghost use Rattle.forms.specs.Printed.{date_text, stamp_text};

use crate::packed::Packed;
use std::fmt;

// A text.
pub type Text = Packed<30>;

// A key: its digits.
pub type Key = Packed<18>;

// A day of the calendar.
#[derive(Clone, Copy)]
pub struct Date {
    pub year: u16,
    pub month: u8,
    pub day: u8,
}

// A minute of a day.
#[derive(Clone, Copy)]
pub struct Stamp {
    pub date: Date,
    pub hour: u8,
    pub minute: u8,
}

// A value of any form. A text's bytes do not lie in it but beside it, where its writing lies: `len` is how many there are.
#[derive(Clone, Copy)]
pub enum Value {
    Text { len: u8 },
    Key(Key),
    Date(Date),
    Stamp(Stamp),
    // so many hundred-thousandths
    Fraction(u64),
    Whole(u32),
}

// Writes year, month and day with hyphens between.
impl fmt::Display for Date {
    ghost output = { λ d. Some (date_text d) };

    fn fmt<W: fmt::Write>(&self, f: &mut fmt::Formatter<W>) -> fmt::Result {
        let Date { year, month, day } = *self;
        write!(f, "{year:04}-{month:02}-{day:02}")
    }
}

// Writes the date, and behind a space hour and minute with a colon between.
impl fmt::Display for Stamp {
    ghost output = { λ s. Some (stamp_text s) };

    fn fmt<W: fmt::Write>(&self, f: &mut fmt::Formatter<W>) -> fmt::Result {
        let Stamp { date, hour, minute } = *self;
        write!(f, "{date} {hour:02}:{minute:02}")
    }
}
