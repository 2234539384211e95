// Measures: a digit that tells the number of decimals, and six digits.
ghost use Rattle.std.specs.Prelude.{◌≡◌, ℕ, ◌-◌, ◌*◌, ◌^◌, ◌<◌, ◌≤◌, true};
ghost use Rattle.forms.specs.Values.{fraction};
ghost use Rattle.forms.specs.Measures.{fewest, measure_lawful, measure_fault, measure_worth, measure_writing};
ghost use Rattle.forms.specs.MeasureLaws.{measure_rewrites};
ghost use Rattle.forms.specs.Writings.{apart_from};
ghost use Rattle.std.proofs.Common.{rules};

use crate::bytes::put;
use crate::fault::FieldFault;
use crate::field::Field;
use crate::form::Form;
use crate::numbers::last_digits;
use crate::value::Value;
use crate::year::Year;

// The form of a measure.
pub struct MeasureForm;

// Ten to the power 5 - `decimals`: so many hundred-thousandths is the last digit worth behind so many decimals.
fn last_digit_worth(decimals: u32) -> u64
    requires { decimals ≤ 5 }
    ensures is { result ≡ 10 ^ (5 - decimals) }
    ensures some { 0 < result }
    ensures most { result ≤ 100000 }
{
    10u64.pow(5 - decimals)
}

// The fewest decimals with which so many hundred-thousandths can be written.
fn fewest_decimals(value: u64) -> u32
    ensures is { result ≡ fewest value }
    ensures most { result ≤ 5 }
    ensures least { (d m : ℕ) → d ≤ 5 → m * 10 ^ (5 - d) ≡ value → result ≤ d }
{
    (0..5)
        .find(|decimals| value % last_digit_worth(*decimals) == 0)
        .unwrap_or(5)
}

impl Form for MeasureForm {
    type Value = u64;

    const MAX: usize = 7;

    ghost MAX = { 7 };

    ghost exact = { true };

    ghost lawful = { measure_lawful };

    ghost worth = { measure_worth };

    ghost writing = { measure_writing };

    ghost meaning = { fraction };

    ghost fault = { measure_fault };

    ghost judged = { Prim.search rules };

    ghost sized = { Prim.search rules };

    ghost rewrites = { λ y f _ h. measure_rewrites y f h };

    ghost lengths = { Prim.search rules };

    ghost tells = { Prim.search rules };

    fn read(_year: Year, field: Field<'_>) -> Result<u64, FieldFault> {
        let digits = field.digits(7, 7)?;
        let decimals = u32::from(digits.bytes[0] - b'0');
        if decimals > 5 {
            return Err(FieldFault::Decimals {
                place: field.place(0),
            });
        }
        Ok(u64::from(digits.behind(1).number()) * last_digit_worth(decimals))
    }

    fn write(value: &u64, out: &mut [u8; 30]) -> usize {
        let decimals = fewest_decimals(*value);
        let m = *value / last_digit_worth(decimals);
        let [a, b, c, d, e, f] = last_digits::<6>(m);
        put(out, &[b'0' + decimals as u8, a, b, c, d, e, f]);
        7
    }

    fn tell(value: &u64) -> Value {
        Value::Fraction(*value)
    }
}
