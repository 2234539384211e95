// Stamps: YYMMDDhhmm, a minute of a day.
ghost use Rattle.std.specs.Prelude.{true};
ghost use Rattle.forms.specs.Values.{stamp_means};
ghost use Rattle.forms.specs.Dates.{stamp_lawful, stamp_fault, stamp_worth, stamp_writing};
ghost use Rattle.forms.specs.DateLaws.{stamp_rewrites};
ghost use Rattle.std.proofs.Common.{rules};

use crate::bytes::put;
use crate::date::{date_digits, read_date};
use crate::fault::FieldFault;
use crate::field::Field;
use crate::form::Form;
use crate::numbers::two_digits;
use crate::value::{Stamp, Value};
use crate::year::Year;

// The form of a stamp.
pub struct StampForm;

impl Form for StampForm {
    type Value = Stamp;

    const MAX: usize = 10;

    ghost MAX = { 10 };

    ghost exact = { true };

    ghost lawful = { stamp_lawful };

    ghost worth = { stamp_worth };

    ghost writing = { stamp_writing };

    ghost meaning = { stamp_means };

    ghost fault = { stamp_fault };

    ghost judged = { Prim.search rules };

    ghost sized = { Prim.search rules };

    ghost rewrites = { λ y f s h. stamp_rewrites y f s h };

    ghost lengths = { Prim.search rules };

    ghost tells = { Prim.search rules };

    fn read(year: Year, field: Field<'_>) -> Result<Stamp, FieldFault> {
        let digits = field.digits(10, 10)?;
        let hour = digits.pair(6);
        let minute = digits.pair(8);
        match read_date(year, digits) {
            Some(date) if 1 <= date.day && hour <= 23 && minute <= 59 => {
                Ok(Stamp { date, hour, minute })
            }
            _ => Err(FieldFault::NoSuchTime {
                place: field.place(0),
            }),
        }
    }

    fn write(value: &Stamp, out: &mut [u8; 30]) -> usize {
        let [a, b, c, d, e, f] = date_digits(&value.date);
        let [g, h] = two_digits(value.hour);
        let [i, j] = two_digits(value.minute);
        put(out, &[a, b, c, d, e, f, g, h, i, j]);
        10
    }

    fn tell(value: &Stamp) -> Value {
        Value::Stamp(*value)
    }
}
