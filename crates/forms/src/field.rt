// A field, and what is asked of every field before it is read.
ghost use Rattle.std.specs.Prelude.{◌≡◌, ◌+◌, Some, None, MatchResult};
ghost use Rattle.forms.specs.Bytes.{digit};
ghost use Rattle.forms.specs.Verdicts.{admitted};

use crate::bytes::{ByteClass, DigitByte, passed};
use crate::fault::FieldFault;
use crate::numbers::Digits;

// A field: its bytes, and the place at which they begin.
#[derive(Clone, Copy)]
pub struct Field<'a> {
    pub bytes: &'a [u8],
    pub at: usize,
}

impl<'a> Field<'a> {
    // The place of its byte `i`.
    pub(crate) fn place(self, i: usize) -> u128
        ensures { result ≡ self.entry.at + i }
    {
        self.at as u128 + i as u128
    }

    // The first fault of a field that is to have `shortest` to `longest` bytes, all of the class.
    pub(crate) fn admit<C: ByteClass>(
        self,
        shortest: usize,
        longest: usize,
    ) -> Result<(), FieldFault>
        ensures { MatchResult result (λ _. admitted C.ByteClass.holds shortest longest self.entry.at self.entry.bytes.now ≡ None) (λ e. admitted C.ByteClass.holds shortest longest self.entry.at self.entry.bytes.now ≡ Some e) }
    {
        if !(shortest..=longest).contains(&self.bytes.len()) {
            return Err(FieldFault::Length {
                place: self.place(0),
            });
        }
        let k = passed::<C>(self.bytes);
        if k < self.bytes.len() {
            return Err(FieldFault::Barred {
                place: self.place(k),
            });
        }
        Ok(())
    }

    // Its bytes, where they are `shortest` to `longest` digits; else its first fault.
    pub(crate) fn digits(self, shortest: usize, longest: usize) -> Result<Digits<'a>, FieldFault>
        ensures { MatchResult result (λ d. (admitted digit shortest longest self.entry.at self.entry.bytes.now ≡ None) × (d.bytes.now ≡ self.entry.bytes.now)) (λ e. admitted digit shortest longest self.entry.at self.entry.bytes.now ≡ Some e) }
    {
        self.admit::<DigitByte>(shortest, longest)?;
        Ok(Digits { bytes: self.bytes })
    }
}
