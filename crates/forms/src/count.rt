// Counts: 1 to 8 digits, a whole number.
ghost use Rattle.std.specs.Prelude.{false};
ghost use Rattle.forms.specs.Values.{whole};
ghost use Rattle.forms.specs.Counts.{count_lawful, count_fault, count_worth, count_writing};
ghost use Rattle.forms.specs.CountLaws.{count_rewrites, count_lengths};
ghost use Rattle.forms.specs.Writings.{apart_from};
ghost use Rattle.std.proofs.Common.{rules};

use crate::fault::FieldFault;
use crate::field::Field;
use crate::form::Form;
use crate::numbers::write_decimal;
use crate::value::Value;
use crate::year::Year;

// The form of a count.
pub struct CountForm;

impl Form for CountForm {
    type Value = u32;

    const MAX: usize = 8;

    ghost MAX = { 8 };

    ghost exact = { false };

    ghost lawful = { count_lawful };

    ghost worth = { count_worth };

    ghost writing = { count_writing };

    ghost meaning = { whole };

    ghost fault = { count_fault };

    ghost judged = { Prim.search rules };

    ghost sized = { Prim.search rules };

    ghost rewrites = { λ y f _ h. count_rewrites y f h };

    ghost lengths = { λ y f _ h. count_lengths y f h };

    ghost tells = { Prim.search rules };

    fn read(_year: Year, field: Field<'_>) -> Result<u32, FieldFault> {
        Ok(field.digits(1, 8)?.number())
    }

    fn write(value: &u32, out: &mut [u8; 30]) -> usize {
        write_decimal(*value, out)
    }

    fn tell(value: &u32) -> Value {
        Value::Whole(*value)
    }
}
