// An Application Identifier: two to four digits that say what the field behind them is.
ghost use Rattle.std.specs.Prelude.{nat_eq, ◌==◌, ◌&&◌, ◌≡◌, ◌+◌, ◌/◌, ◌%◌, ◌^◌, ◌<◌, ◌≤◌, ◌++◌, take, drop, Decides, MatchOption};
ghost use Rattle.books.specs.Texts.{IsIdent, starts, overlap, comes_first, lead, whole, predefined, rank};
ghost use Rattle.std.specs.Ordering.{eq_of_both, on};
ghost use Rattle.std.specs.Cmp.Rules.{comparing};
ghost use Rattle.std.proofs.Common.{rules};

use crate::ident_text::IdentText;
use crate::predefined::predefined_length;
use forms::numbers::last_digits;

// An ident of two to four digits. As text it is its digits, zeros in front where its number has fewer.
#[derive(Clone, Copy, Debug)]
pub struct Ident {
    pub digits: u8,
    pub number: u16,
    ghost least: { 2 ≤ digits },
    ghost most: { digits ≤ 4 },
    ghost fits: { number < 10 ^ digits },
}

// Idents are equal where their digits and numbers are.
// Kept: by hand, since `eq` promises that it decides whether the two are one, and a derived `eq` promises its test alone.
impl PartialEq for Ident {
    ghost eq = { eq_of_both (on (λ i. i.digits) nat_eq) (on (λ i. i.number) nat_eq) };

    ghost laws = { Prim.search (comparing, rules) };

    fn eq(&self, other: &Ident) -> bool
        ensures is { result ≡ (self.now.digits == other.now.digits && self.now.number == other.now.number) }
        ensures decides { Decides result (self.now ≡ other.now) }
    {
        self.digits == other.digits && self.number == other.number
    }
}

impl Ident {
    ghost use Rattle.books.specs.Shown.{shown};
    ghost use Rattle.books.specs.Entries.{ident_text};

    // The ident that so many digits write, if there are two to four and they can write the number.
    pub fn new(digits: u8, number: u16) -> Option<Ident>
        ensures { MatchOption result (IsIdent digits number → ⊥) (λ i. (i.digits ≡ digits) × (i.number ≡ number)) }
    {
        if (2..=4).contains(&digits) && number < 10u16.pow(u32::from(digits)) {
            Some(Ident { digits, number })
        } else {
            None
        }
    }

    // Its text: so many digits, zeros in front where its number has fewer.
    pub fn text(&self) -> IdentText
        ensures { shown result ≡ ident_text self.now }
    {
        IdentText {
            bytes: last_digits(u64::from(self.number)),
            count: self.digits,
        }
    }

    // Writes the text over the first bytes of `out`, and says how many they are.
    pub fn write(&self, out: &mut [u8; 4]) -> usize
        ensures count { result ≡ self.now.digits }
        ensures front { take result out.new ≡ ident_text self.now }
        ensures text { out.new ≡ ident_text self.now ++ drop self.now.digits out.old }
    {
        let text = self.text();
        let digits = text.as_slice();
        out[..digits.len()].copy_from_slice(digits);
        digits.len()
    }

    // Whether the bytes shown begin with the text.
    pub fn begins(&self, shown: &[u8]) -> bool
        ensures { result ≡ starts (ident_text self.now) shown.now }
    {
        shown.starts_with(self.text().as_slice())
    }

    // Whether the text of one equals or begins the text of the other.
    pub fn overlaps(&self, other: &Ident) -> bool
        ensures { result ≡ overlap (ident_text self.now) (ident_text other.now) }
    {
        self.begins(other.text().as_slice()) || other.begins(self.text().as_slice())
    }

    // The length of ident and field together that the first two digits predefine.
    pub fn whole_length(&self) -> Option<u8>
        ensures { result ≡ whole (lead (ident_text self.now)) }
    {
        predefined_length((self.number / 10u16.pow(u32::from(self.digits) - 2)) as u8)
    }

    // Whether the first two digits predefine a length.
    pub fn predefined(&self) -> bool
        ensures { result ≡ predefined (ident_text self.now) }
    {
        self.whole_length().is_some()
    }

    // Whether it stands before the other: predefined idents first, and then by their digits as text.
    pub fn comes_before(&self, other: &Ident) -> bool
        ensures { result ≡ comes_first (rank (ident_text self.now)) (rank (ident_text other.now)) }
    {
        let (text, theirs) = (self.text(), other.text());
        (!self.predefined(), text.as_slice()) < (!other.predefined(), theirs.as_slice())
    }
}
