// Why a call on a card is refused.
ghost use Rattle.std.specs.Prelude.{◌≡◌};
ghost use Rattle.cards.specs.Faults.{card_number, card_layer, card_place, print_number, print_layer, print_place};
ghost use Rattle.cards.specs.declared.fault.PrintFault.TheVariants.{Short};

use forms::fault::{Fault, Layer};
use symbols::fault::WriterFault;

// Why an ident is not struck, or a year not set.
#[derive(Clone, Copy, Debug, PartialEq, Eq)]
pub enum CardFault {
    // the ident is not held
    NotHeld,
    // the year is not from 2000 to 2199
    NoSuchYear,
    // a date or stamp would lie outside the new year's span; the number of the first such element
    Outside { element: usize },
}

impl Fault for CardFault {
    ghost numbered = { card_number };

    ghost layered = { card_layer };

    ghost placed = { card_place };

    fn number(&self) -> u8 {
        match self {
            CardFault::NotHeld => 12,
            CardFault::NoSuchYear => 13,
            CardFault::Outside { .. } => 14,
        }
    }

    fn layer(&self) -> Layer {
        Layer::Card
    }

    fn place(&self) -> u128 {
        match self {
            CardFault::NotHeld | CardFault::NoSuchYear => 0,
            CardFault::Outside { element } => *element as u128,
        }
    }
}

// Why a symbol of a card is not printed.
#[derive(Clone, Copy, Debug, PartialEq, Eq)]
pub enum PrintFault {
    // there is no symbol of that number; how many there are
    NoSymbol { count: usize },
    // the buffer is too short
    Short(WriterFault),
}

impl From<WriterFault> for PrintFault {
    ghost from_gives = { λ f r. r ≡ Short f };

    fn from(short: WriterFault) -> PrintFault {
        PrintFault::Short(short)
    }
}

// It is of the writer's layer, and its place is the number of symbols, or of the bytes needed.
impl Fault for PrintFault {
    ghost numbered = { print_number };

    ghost layered = { print_layer };

    ghost placed = { print_place };

    fn number(&self) -> u8 {
        match self {
            PrintFault::NoSymbol { .. } => 16,
            PrintFault::Short(fault) => fault.number(),
        }
    }

    fn layer(&self) -> Layer {
        match self {
            PrintFault::NoSymbol { .. } => Layer::Writer,
            PrintFault::Short(fault) => fault.layer(),
        }
    }

    fn place(&self) -> u128 {
        match self {
            PrintFault::NoSymbol { count } => *count as u128,
            PrintFault::Short(fault) => fault.place(),
        }
    }
}
