// Keys: 2 to 18 digits, of which the last is a check digit.
ghost use Rattle.std.specs.Prelude.{◌≡◌, ℕ, ◌-◌, ◌≤◌, true, length};
ghost use Rattle.forms.specs.Bytes.{digit, every};
ghost use Rattle.forms.specs.Values.{key_means};
ghost use Rattle.forms.specs.Keys.{weight as weight-of, weighted, key_lawful, key_fault, key_worth, key_writing};
ghost use Rattle.forms.specs.PackedLaws.{key_rewrites};
ghost use Rattle.forms.specs.Writings.{packed_lengths};
ghost use Rattle.std.proofs.Common.{arith, rules};

use crate::fault::FieldFault;
use crate::field::Field;
use crate::form::Form;
use crate::numbers::Digits;
use crate::value::{Key, Value};
use crate::year::Year;

// The form of a key.
pub struct KeyForm;

// The weight of a digit that has `right` digits to its right.
fn weight(right: usize) -> u32
    ensures { result ≡ weight-of right }
{
    if right % 2 == 1 { 3 } else { 1 }
}

// The weighted sum of digits.
fn weighted_sum(digits: Digits<'_>) -> u32
    requires { length digits.bytes.now ≤ 18 }
    ensures { result ≡ weighted digits.entry.bytes.now }
{
    let mut sum: u32 = 0;
    for (right, b) in digits.bytes.iter().rev().enumerate() {
        sum += weight(right) * u32::from(*b - b'0');
    }
    sum
}

impl Form for KeyForm {
    type Value = Key;

    const MAX: usize = 18;

    ghost MAX = { 18 };

    ghost exact = { true };

    ghost lawful = { key_lawful };

    ghost worth = { key_worth };

    ghost writing = { key_writing };

    ghost meaning = { key_means };

    ghost fault = { key_fault };

    ghost judged = { Prim.search rules };

    ghost sized = { Prim.search rules };

    ghost rewrites = { λ y f _ h. key_rewrites y f h };

    ghost lengths = { λ y f _ h. packed_lengths 18 key_lawful y f (omega (arith, h.some)) };

    ghost tells = { Prim.search rules };

    fn read(_year: Year, field: Field<'_>) -> Result<Key, FieldFault> {
        let digits = field.digits(2, 18)?;
        if weighted_sum(digits) % 10 != 0 {
            return Err(FieldFault::CheckDigit {
                place: field.place(field.bytes.len() - 1),
            });
        }
        Ok(Key::of(field.bytes))
    }

    fn write(value: &Key, out: &mut [u8; 30]) -> usize {
        value.write(out)
    }

    fn tell(value: &Key) -> Value {
        Value::Key(*value)
    }
}
