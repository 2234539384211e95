// Why a symbol is not read or not written.
ghost use Rattle.symbols.specs.Telling.{writer_number, writer_layer, writer_place, symbol_number, symbol_layer, symbol_place, add_number, add_layer, add_place};
ghost use Rattle.std.specs.Prelude.{◌≡◌};
ghost use Rattle.symbols.specs.declared.fault.SymbolFault.TheVariants.{Scan};

use forms::fault::{Fault, Layer};
use scans::fault::ScanFault;

// A buffer is too short: how many bytes are needed, counted from its start.
#[derive(Clone, Copy, Debug, PartialEq, Eq)]
pub struct WriterFault {
    pub needed: usize,
}

// Why values are no symbol, and the place among them.
#[derive(Clone, Copy, Debug, PartialEq, Eq)]
pub enum SymbolFault {
    // too few values, or not the first, second or last value of a symbol; that value, or their number
    Frame { place: usize },
    // not the check value of the values before it; the check value
    CheckValue { place: usize },
    // a value without a use in its set; that value
    NoUse { place: usize },
    // more than 48 bytes of data; the value that brings them past 48
    TooLong { place: usize },
    // the scan that the data is has a fault, which is told whole; places count from the `]C1` before the data
    Scan(ScanFault),
}

// Why an element is not added to a symbol.
#[derive(Clone, Copy, Debug, PartialEq, Eq)]
pub enum AddFault {
    // under two bytes, or not of the length that its first two digits predefine
    Length,
    // a byte that no text may hold, or one of the first two that is no digit; the first such byte
    Barred { place: usize },
    // more than 48 bytes of data; the length that the data would have
    TooLong { length: u128 },
    // the buffer is too short
    Full(WriterFault),
}

// It is of the writer's layer, and its place is the number of bytes needed.
impl Fault for WriterFault {
    ghost numbered = { writer_number };

    ghost layered = { writer_layer };

    ghost placed = { writer_place };

    fn number(&self) -> u8 {
        15
    }

    fn layer(&self) -> Layer {
        Layer::Writer
    }

    fn place(&self) -> u128 {
        self.needed as u128
    }
}

impl From<ScanFault> for SymbolFault {
    ghost from_gives = { λ f r. r ≡ Scan f };

    fn from(fault: ScanFault) -> SymbolFault {
        SymbolFault::Scan(fault)
    }
}

// It is of the symbol's layer, and its place is an index among the values; a scan's fault tells its own.
impl Fault for SymbolFault {
    ghost numbered = { symbol_number };

    ghost layered = { symbol_layer };

    ghost placed = { symbol_place };

    fn number(&self) -> u8 {
        match self {
            SymbolFault::Frame { .. } => 17,
            SymbolFault::CheckValue { .. } => 18,
            SymbolFault::NoUse { .. } => 19,
            SymbolFault::TooLong { .. } => 20,
            SymbolFault::Scan(fault) => fault.number(),
        }
    }

    fn layer(&self) -> Layer {
        match self {
            SymbolFault::Scan(fault) => fault.layer(),
            _ => Layer::Symbol,
        }
    }

    fn place(&self) -> u128 {
        match self {
            SymbolFault::Frame { place }
            | SymbolFault::CheckValue { place }
            | SymbolFault::NoUse { place }
            | SymbolFault::TooLong { place } => *place as u128,
            SymbolFault::Scan(fault) => fault.place(),
        }
    }
}

// It is of the layer whose rule the element breaks.
impl Fault for AddFault {
    ghost numbered = { add_number };

    ghost layered = { add_layer };

    ghost placed = { add_place };

    fn number(&self) -> u8 {
        match self {
            AddFault::Length => 4,
            AddFault::Barred { .. } => 5,
            AddFault::TooLong { .. } => 20,
            AddFault::Full(fault) => fault.number(),
        }
    }

    fn layer(&self) -> Layer {
        match self {
            AddFault::Length => Layer::Scan,
            AddFault::Barred { .. } => Layer::Field,
            AddFault::TooLong { .. } => Layer::Symbol,
            AddFault::Full(fault) => fault.layer(),
        }
    }

    fn place(&self) -> u128 {
        match self {
            AddFault::Length => 0,
            AddFault::Barred { place } => *place as u128,
            AddFault::TooLong { length } => *length,
            AddFault::Full(fault) => fault.place(),
        }
    }
}
