// Digits: 1 to 30 of them. They are a text as a value.
ghost use Rattle.std.specs.Prelude.{◌-◌, true, length};
ghost use Rattle.forms.specs.Values.{text_means};
ghost use Rattle.forms.specs.Texts.{text_writing, digits_lawful, digits_fault, text_worth};
ghost use Rattle.forms.specs.PackedLaws.{digits_rewrites};
ghost use Rattle.forms.specs.Writings.{packed_lengths};
ghost use Rattle.std.proofs.Common.{rules};

use crate::bytes::DigitByte;
use crate::fault::FieldFault;
use crate::field::Field;
use crate::form::Form;
use crate::text::{read_text, tell_text};
use crate::value::{Text, Value};
use crate::year::Year;

// The form of digits.
// Kept: each form is an impl of its own, by a rule of the project; text and digits share what reads and tells them.
pub struct DigitsForm;

impl Form for DigitsForm {
    type Value = Text;

    const MAX: usize = 30;

    ghost MAX = { 30 };

    ghost exact = { true };

    ghost lawful = { digits_lawful };

    ghost worth = { text_worth };

    ghost writing = { text_writing };

    ghost meaning = { text_means };

    ghost fault = { digits_fault };

    ghost judged = { Prim.search rules };

    ghost sized = { Prim.search rules };

    ghost rewrites = { λ y f _ h. digits_rewrites y f h };

    ghost lengths = { λ y f _ h. packed_lengths 30 digits_lawful y f h.some };

    ghost tells = { Prim.search rules };

    fn read(_year: Year, field: Field<'_>) -> Result<Text, FieldFault> {
        read_text::<DigitByte>(field)
    }

    fn write(value: &Text, out: &mut [u8; 30]) -> usize {
        value.write(out)
    }

    fn tell(value: &Text) -> Value {
        tell_text(value)
    }
}
