// A field judged by the form that is named: the one place where the forms are told apart.
ghost use Rattle.std.specs.Prelude.{◌≡◌};
ghost use Rattle.forms.specs.Kinds.{kind_fault, kind_meaning, Reads};

use crate::count::CountForm;
use crate::date::DateForm;
use crate::digits::DigitsForm;
use crate::fault::FieldFault;
use crate::field::Field;
use crate::form::Form;
use crate::key::KeyForm;
use crate::kind::FormKind;
use crate::measure::MeasureForm;
use crate::stamp::StampForm;
use crate::text::TextForm;
use crate::value::Value;
use crate::year::Year;

// What a lawful field means, and how many bytes its value's writing has.
// Kept: a number beside the bytes that are lent, since the library asks for no memory.
#[derive(Clone, Copy)]
pub struct Reading {
    pub value: Value,
    pub len: usize,
}

// Reads a field of a form and writes its value again over the first bytes of `out`; where it has a fault, `out` stays.
fn judge_as<F: Form>(
    year: Year,
    field: Field<'_>,
    out: &mut [u8; 30],
) -> Result<Reading, FieldFault>
    ensures { Reads (F.Form.fault year.number field.entry.at field.entry.bytes.now) (F.Form.meaning (F.Form.worth year.number field.entry.bytes.now)) out.old out.new result }
{
    let value = F::read(year, field)?;
    let len = F::write(&value, out);
    Ok(Reading {
        value: F::tell(&value),
        len,
    })
}

// Judges a field of the form `kind` on a card of the year `year`: its value, which is written again over the first bytes of `out`;
// or its first fault, and `out` stays.
pub fn judge(
    kind: FormKind,
    year: Year,
    field: Field<'_>,
    out: &mut [u8; 30],
) -> Result<Reading, FieldFault>
    ensures { Reads (kind_fault kind year.number field.entry.at field.entry.bytes.now) (kind_meaning kind year.number field.entry.bytes.now) out.old out.new result }
{
    match kind {
        FormKind::Text => judge_as::<TextForm>(year, field, out),
        FormKind::Digits => judge_as::<DigitsForm>(year, field, out),
        FormKind::Key => judge_as::<KeyForm>(year, field, out),
        FormKind::Date => judge_as::<DateForm>(year, field, out),
        FormKind::Stamp => judge_as::<StampForm>(year, field, out),
        FormKind::Measure => judge_as::<MeasureForm>(year, field, out),
        FormKind::Count => judge_as::<CountForm>(year, field, out),
    }
}
