// What every form is, and what is done with a field of any form.
ghost use Rattle.std.specs.Prelude.{◌≡◌, ℕ, ◌≤◌, Bool, true, List, ◌++◌, length, drop, Some, None, Decides, Option, MatchResult};
ghost use Rattle.forms.specs.declared.fault.FieldFault.{FieldFault};
ghost use Rattle.forms.specs.Years.{InSpan};
ghost use Rattle.forms.specs.Verdicts.{answered};
ghost use Rattle.forms.specs.Values.{Meaning, told, written};
ghost use Rattle.forms.specs.Writings.{apart_from};
ghost use Rattle.forms.specs.Laws.{Rewrites, Lengths, Judged, Rewrote, FirstRefused};

use crate::fault::FieldFault;
use crate::field::Field;
use crate::value::Value;
use crate::year::Year;

// A form of a field. In the year y a field f is lawful or has a first fault; a lawful one has a value, and a value a writing.
pub trait Form {
    // the form's own kind of value
    type Value: Copy;

    // the longest field
    const MAX: usize;

    ghost MAX: { ℕ };

    // whether a writing is always as long as the field that was read
    ghost exact: { Bool };

    // the field f is lawful in the year y
    ghost lawful: { ℕ → List ℕ → Type 0 };

    // its value
    ghost worth: { ℕ → List ℕ → Self.Value };

    // the writing of a value
    ghost writing: { Self.Value → List ℕ };

    // the value among the kinds of values
    ghost meaning: { Self.Value → Meaning };

    // the first fault of the field f in the year y, where f begins at the place p
    ghost fault: { ℕ → ℕ → List ℕ → Option FieldFault };

    // The longest field.
    fn longest() -> usize
        ensures { result ≡ MAX }
    {
        Self::MAX
    }

    // The value of a field of any bytes that begins at any place, or its first fault.
    fn read(year: Year, field: Field<'_>) -> Result<Self::Value, FieldFault>
        ensures { result ≡ answered (fault year.number field.entry.at field.entry.bytes.now) (worth year.number field.entry.bytes.now) };

    // Writes a value over the first bytes of `out`, and says how many it wrote.
    // Kept: fixed memory, since the library asks for none: the caller lends the buffer.
    fn write(value: &Self::Value, out: &mut [u8; 30]) -> usize
        ensures long { result ≡ length (writing value.now) }
        ensures wrote { out.new ≡ writing value.now ++ drop result out.old };

    // The value among the kinds of values; where it is a text, its bytes lie in its writing.
    fn tell(value: &Self::Value) -> Value
        ensures { (rest : List ℕ) → told result (writing value.now ++ rest) ≡ meaning value.now };

    // a field is lawful exactly where it has no fault
    ghost judged: { (y p : ℕ) (f : List ℕ) → Judged (lawful y f) (fault y p f) };

    // a lawful field is not longer than the longest, which is not longer than 30 bytes
    ghost sized: { (y : ℕ) (f : List ℕ) → lawful y f → (1 ≤ length f) × (length f ≤ MAX) × (MAX ≤ 30) };

    // a writing is lawful, has only bytes that a text may hold, and has the value written
    ghost rewrites: { (y : ℕ) (f : List ℕ) → InSpan y → lawful y f → Rewrites lawful worth writing y f };

    // two lawful fields have equal values exactly where their writings are equal
    ghost apart: { (y : ℕ) (f g : List ℕ) → InSpan y → lawful y f → lawful y g → (worth y f ≡ worth y g → writing (worth y f) ≡ writing (worth y g)) × (writing (worth y f) ≡ writing (worth y g) → worth y f ≡ worth y g) } = { λ y f g s h k. apart_from lawful worth writing y f g (rewrites y f s h) (rewrites y g s k) };

    // a writing is as long as the field read, or, where it need not be, at least a byte and no longer
    ghost lengths: { (y : ℕ) (f : List ℕ) → InSpan y → lawful y f → Lengths exact (length f) (length (writing (worth y f))) };

    // a writing is that of the value among the kinds of values
    ghost tells: { (v : Self.Value) → writing v ≡ written (meaning v) };
}

// Kept: 30 lent bytes, and how many were written, since the library asks for no memory.
// Writes the value of a field again, over the first bytes of `out`, and says how many it wrote; or the field's first fault, and `out` stays.
pub fn rewrite<F: Form>(
    year: Year,
    field: Field<'_>,
    out: &mut [u8; 30],
) -> Result<usize, FieldFault>
    ensures { MatchResult result (λ n. (F.Form.fault year.number field.entry.at field.entry.bytes.now ≡ None) × Rewrote F.Form.lawful F.Form.worth F.Form.writing year.number field.entry.bytes.now out.old out.new n) (λ e. (F.Form.fault year.number field.entry.at field.entry.bytes.now ≡ Some e) × (out.new ≡ out.old)) }
{
    let value = F::read(year, field)?;
    Ok(F::write(&value, out))
}

// Kept: two arrays and how many bytes were written, since the library asks for no memory.
// Whether two fields have one value; or the first fault of the first that has one. Places count from each field's first byte.
pub fn same<F: Form>(year: Year, a: &[u8], b: &[u8]) -> Result<bool, FieldFault>
    ensures { MatchResult result (λ s. F.Form.lawful year.number a.now × F.Form.lawful year.number b.now × Decides s (F.Form.worth year.number a.now ≡ F.Form.worth year.number b.now)) (λ e. FirstRefused (F.Form.fault year.number 0 a.now) (F.Form.fault year.number 0 b.now) e) }
{
    let mut left = [0; 30];
    let mut right = [0; 30];
    let m = rewrite::<F>(year, Field { bytes: a, at: 0 }, &mut left)?;
    let n = rewrite::<F>(year, Field { bytes: b, at: 0 }, &mut right)?;
    Ok(left[..m] == right[..n])
}
