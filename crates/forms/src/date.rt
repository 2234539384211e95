// Dates: YYMMDD.
ghost use Rattle.std.specs.Prelude.{◌≡◌, ℕ, ◌+◌, ◌%◌, ◌<◌, ◌≤◌, true, ◌&&◌, length};
ghost use Rattle.forms.specs.Bytes.{digit, every, pair, two};
ghost use Rattle.forms.specs.Values.{date_means};
ghost use Rattle.forms.specs.Dates.{full_year, leap, days_in, date_read, date_lawful, date_fault, date_worth, date_writing};
ghost use Rattle.forms.specs.DateLaws.{date_rewrites};
ghost use Rattle.forms.specs.Writings.{apart_from};
ghost use Rattle.std.proofs.Common.{rules};

use crate::bytes::put;
use crate::fault::FieldFault;
use crate::field::Field;
use crate::form::Form;
use crate::numbers::{Digits, two_digits};
use crate::value::{Date, Value};
use crate::year::Year;

// The form of a date.
pub struct DateForm;

// The year of which `yy` are the last two digits, on a card of the year `card`: the only such year from 49 before to 50 after it.
pub(crate) fn full_year(card: Year, yy: u8) -> u16
    ensures is { result ≡ full_year card.number yy }
    ensures last { yy < 100 → result % 100 ≡ yy }
    ensures near { yy < 100 → (card.number ≤ result + 49) × (result ≤ card.number + 50) }
    ensures only { (z : ℕ) → z % 100 ≡ yy → card.number ≤ z + 49 → z ≤ card.number + 50 → z ≡ result }
{
    let number = card.number();
    let last = number % 100;
    let century = number - last;
    let two = u16::from(yy);
    if two >= last + 51 {
        century - 100 + two
    } else if two + 50 <= last {
        century + 100 + two
    } else {
        century + two
    }
}

// Whether a year has a 29 February.
fn is_leap(year: u16) -> bool
    ensures { result ≡ leap year }
{
    year % 4 == 0 && (year % 100 != 0 || year % 400 == 0)
}

// The last day of a month.
pub(crate) fn last_day(year: u16, month: u8) -> u8
    ensures { result ≡ days_in year month }
{
    match month {
        2 if is_leap(year) => 29,
        2 => 28,
        4 | 6 | 9 | 11 => 30,
        _ => 31,
    }
}

// The date that the first six digits write on a card of the year `card`, its day as written, if there is such a date.
pub(crate) fn read_date(card: Year, digits: Digits<'_>) -> Option<Date>
    requires { 6 ≤ length digits.bytes.now }
    ensures { result ≡ date_read card.number digits.entry.bytes.now }
{
    let year = full_year(card, digits.pair(0));
    let month = digits.pair(2);
    let day = digits.pair(4);
    let stands = (1..=12).contains(&month) && day <= last_day(year, month);
    stands.then_some(Date { year, month, day })
}

// The six digits of a date.
pub(crate) fn date_digits(date: &Date) -> [u8; 6]
    ensures { result ≡ date_writing date.now }
{
    let [a, b] = two_digits((date.year % 100) as u8);
    let [c, d] = two_digits(date.month);
    let [e, f] = two_digits(date.day);
    [a, b, c, d, e, f]
}

impl Form for DateForm {
    type Value = Date;

    const MAX: usize = 6;

    ghost MAX = { 6 };

    ghost exact = { true };

    ghost lawful = { date_lawful };

    ghost worth = { date_worth };

    ghost writing = { date_writing };

    ghost meaning = { date_means };

    ghost fault = { date_fault };

    ghost judged = { Prim.search rules };

    ghost sized = { Prim.search rules };

    ghost rewrites = { λ y f s h. date_rewrites y f s h };

    ghost lengths = { Prim.search rules };

    ghost tells = { Prim.search rules };

    fn read(year: Year, field: Field<'_>) -> Result<Date, FieldFault> {
        let digits = field.digits(6, 6)?;
        let date = read_date(year, digits).ok_or(FieldFault::NoSuchTime {
            place: field.place(0),
        })?;
        let day = if date.day == 0 {
            last_day(date.year, date.month)
        } else {
            date.day
        };
        Ok(Date { day, ..date })
    }

    fn write(value: &Date, out: &mut [u8; 30]) -> usize {
        put(out, &date_digits(value));
        6
    }

    fn tell(value: &Date) -> Value {
        Value::Date(*value)
    }
}
