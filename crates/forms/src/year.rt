// The year of a card.
ghost use Rattle.std.specs.Prelude.{◌≡◌, ◌≤◌, MatchOption};
ghost use Rattle.forms.specs.Years.{InSpan};

// A year in which a card can stand: 2000 to 2199, and no other.
#[derive(Clone, Copy)]
pub struct Year {
    number: u16,
    ghost first: { 2000 ≤ number },
    ghost last: { number ≤ 2199 },
}

impl Year {
    // The year in which a new card stands.
    pub const FIRST: Year = Year { number: 2000 };

    // The year of that number, if a card can stand in it.
    pub fn new(number: u16) -> Option<Year>
        ensures { MatchOption result (InSpan number → ⊥) (λ y. InSpan number × (y.number ≡ number)) }
    {
        if (2000..=2199).contains(&number) {
            Some(Year { number })
        } else {
            None
        }
    }

    // Its number.
    pub fn number(self) -> u16
        ensures is { result ≡ self.number }
        ensures span { InSpan result }
    {
        self.number
    }
}
