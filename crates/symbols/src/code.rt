// The code sets, and the values with a use of their own.
ghost use Rattle.std.specs.Prelude.{◌≡◌, true, false, MatchOption};
ghost use Rattle.symbols.specs.Sets.{other};
ghost use Rattle.symbols.specs.Reading.{starts, start_set};

// The sets of meanings that a symbol's values have.
#[derive(Clone, Copy, Debug, PartialEq, Eq)]
pub enum CodeSet {
    B,
    C,
}

impl CodeSet {
    // The set that a change of set goes to.
    pub(crate) fn other(self) -> CodeSet
        ensures { result ≡ other self }
    {
        match self {
            CodeSet::B => CodeSet::C,
            CodeSet::C => CodeSet::B,
        }
    }

    // The set that a symbol is read in from its start on, if the value is a start.
    // Kept: a function with a name, and no TryFrom, since a value names a set only where a symbol starts.
    pub(crate) fn of_start(start: u8) -> Option<CodeSet>
        ensures { MatchOption result (starts start ≡ false) (λ s. (starts start ≡ true) × (s ≡ start_set start)) }
    {
        match start {
            START_B => Some(CodeSet::B),
            START_C => Some(CodeSet::C),
            _ => None,
        }
    }
}

// The start of a symbol that is read from set B on.
pub const START_B: u8 = 104;

// The start of a symbol that is read from set C on.
pub const START_C: u8 = 105;

// The separator; behind the start it marks the symbol.
pub const SEPARATOR: u8 = 102;

// Goes from set C to set B.
pub const TO_B: u8 = 100;

// Goes from set B to set C.
pub const TO_C: u8 = 99;

// The last value of a symbol.
pub const STOP: u8 = 106;
