// Texts: 1 to 30 bytes that a text may hold.
ghost use Rattle.std.specs.Prelude.{◌≡◌, ℕ, ◌-◌, true, List, ◌++◌, length, drop};
ghost use Rattle.forms.specs.Verdicts.{answered};
ghost use Rattle.forms.specs.Packs.{packed};
ghost use Rattle.forms.specs.Values.{told, text_means};
ghost use Rattle.forms.specs.Texts.{chars_fault, text_writing, text_lawful, text_fault, text_worth};
ghost use Rattle.forms.specs.PackedLaws.{text_rewrites};
ghost use Rattle.forms.specs.Writings.{packed_lengths};
ghost use Rattle.std.proofs.Common.{rules};

use crate::bytes::{ByteClass, TextByte};
use crate::fault::FieldFault;
use crate::field::Field;
use crate::form::Form;
use crate::value::{Text, Value};
use crate::year::Year;

// The form of a text.
pub struct TextForm;

// The text of a field of 1 to 30 bytes, all of the class, or the field's first fault.
pub(crate) fn read_text<C: ByteClass>(field: Field<'_>) -> Result<Text, FieldFault>
    ensures { result ≡ answered (chars_fault C.ByteClass.holds field.entry.at field.entry.bytes.now) (packed 30 field.entry.bytes.now) }
{
    field.admit::<C>(1, 30)?;
    Ok(Text::of(field.bytes))
}

// A text among the kinds of values.
pub(crate) fn tell_text(value: &Text) -> Value
    ensures { (rest : List ℕ) → told result (text_writing value.now ++ rest) ≡ text_means value.now }
{
    Value::Text {
        len: value.len.min(30),
    }
}

impl Form for TextForm {
    type Value = Text;

    const MAX: usize = 30;

    ghost MAX = { 30 };

    ghost exact = { true };

    ghost lawful = { text_lawful };

    ghost worth = { text_worth };

    ghost writing = { text_writing };

    ghost meaning = { text_means };

    ghost fault = { text_fault };

    ghost judged = { Prim.search rules };

    ghost sized = { Prim.search rules };

    ghost rewrites = { λ y f _ h. text_rewrites y f h };

    ghost lengths = { λ y f _ h. packed_lengths 30 text_lawful y f h.some };

    ghost tells = { Prim.search rules };

    fn read(_year: Year, field: Field<'_>) -> Result<Text, FieldFault> {
        read_text::<TextByte>(field)
    }

    fn write(value: &Text, out: &mut [u8; 30]) -> usize {
        value.write(out)
    }

    fn tell(value: &Text) -> Value {
        tell_text(value)
    }
}
