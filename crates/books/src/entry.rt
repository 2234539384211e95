// An entry of a book: an ident, and what the field behind it may be.
ghost use Rattle.std.specs.Prelude.{nat_eq, ◌==◌, ◌&&◌, ◌≡◌, ◌≤◌, T, Decides, MatchOption};
ghost use Rattle.books.specs.Lawful.{in_bounds, form_allows, fills, lawful};
ghost use Rattle.std.specs.Ordering.{eq_of_both, on};
ghost use denote.Enum.Declared.{tag_of};
ghost use Rattle.forms.specs.contracts.kind.FormKind.{the_type};
ghost use Rattle.std.specs.Cmp.Rules.{comparing};
ghost use Rattle.std.proofs.Common.{rules};

use crate::ident::Ident;
use forms::kind::FormKind;

// A lawful entry: lengths in bytes that its form allows, and that make up the length that its ident predefines, if it does.
// Kept: two lengths, and no struct of them, since `entry.longest` is plainer than `entry.lengths.longest`, and a type of lawful lengths would ask more of those who call `new`.
#[derive(Clone, Copy, Debug)]
pub struct Entry {
    pub ident: Ident,
    pub form: FormKind,
    pub shortest: u8,
    pub longest: u8,
    ghost least: { 1 ≤ shortest },
    ghost ordered: { shortest ≤ longest },
    ghost most: { longest ≤ 30 },
    ghost ok: { T (lawful ident.digits ident.number form shortest longest) },
}

// Entries are equal where all that they say is.
// Kept: by hand, since `eq` promises that it decides whether the two are one, and a derived `eq` promises its test alone.
impl PartialEq for Entry {
    ghost eq = { eq_of_both
        (eq_of_both
        (eq_of_both (on (λ e. e.ident) (eq_of_both (on (λ i. i.digits) nat_eq) (on (λ i. i.number) nat_eq))) (on (λ e. tag_of the_type e.form) nat_eq))
        (on (λ e. e.shortest) nat_eq)) (on (λ e. e.longest) nat_eq) };

    ghost laws = { Prim.search (comparing, rules) depth 12 };

    fn eq(&self, other: &Entry) -> bool
        ensures is { result ≡ (((self.now.ident.digits == other.now.ident.digits && self.now.ident.number == other.now.ident.number) && tag_of the_type self.now.form == tag_of the_type other.now.form) && self.now.shortest == other.now.shortest && self.now.longest == other.now.longest) }
        ensures decides { Decides result (self.now ≡ other.now) }
    {
        self.ident == other.ident
            && self.form == other.form
            && self.shortest == other.shortest
            && self.longest == other.longest
    }
}

// Whether a field may have these lengths at all: 1 to 30 bytes.
fn in_bounds(shortest: u8, longest: u8) -> bool
    ensures { result ≡ in_bounds shortest longest }
{
    1 <= shortest && shortest <= longest && longest <= 30
}

// Whether the form allows these lengths behind an ident of so many digits.
fn form_allows(form: FormKind, digits: u8, shortest: u8, longest: u8) -> bool
    ensures { result ≡ form_allows form digits shortest longest }
{
    match form {
        FormKind::Text | FormKind::Digits => true,
        FormKind::Key => shortest == longest && (2..=18).contains(&longest),
        FormKind::Date => shortest == 6 && longest == 6,
        FormKind::Stamp => shortest == 10 && longest == 10,
        FormKind::Measure => digits == 3 && shortest == 7 && longest == 7,
        FormKind::Count => shortest == 1 && longest <= 8,
    }
}

// Whether ident and field together have the length that is predefined, if one is.
fn fills_whole(whole: Option<u8>, digits: u8, shortest: u8, longest: u8) -> bool
    ensures { result ≡ fills whole digits shortest longest }
{
    whole.is_none_or(|total| {
        let total = u16::from(total);
        let digits = u16::from(digits);
        digits + u16::from(shortest) == total && digits + u16::from(longest) == total
    })
}

impl Entry {
    // The entry of these parts, if they are lawful together.
    pub fn new(ident: Ident, form: FormKind, shortest: u8, longest: u8) -> Option<Entry>
        ensures { MatchOption result (T (lawful ident.digits ident.number form shortest longest) → ⊥) (λ e. (e.ident ≡ ident) × (e.form ≡ form) × (e.shortest ≡ shortest) × (e.longest ≡ longest)) }
    {
        if in_bounds(shortest, longest)
            && form_allows(form, ident.digits, shortest, longest)
            && fills_whole(ident.whole_length(), ident.digits, shortest, longest)
        {
            Some(Entry {
                ident,
                form,
                shortest,
                longest,
            })
        } else {
            None
        }
    }

    // Whether the two are the same entry.
    pub fn same(&self, other: &Entry) -> bool
        ensures { Decides result (self.now ≡ other.now) }
    {
        self == other
    }
}
