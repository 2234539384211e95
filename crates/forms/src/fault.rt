// Why a field is refused.
ghost use Rattle.std.specs.Prelude.{◌≡◌, ℕ, Some};
ghost use Rattle.forms.specs.declared.fault.Layer.{Layer};
ghost use Rattle.forms.specs.Faults.{field_number, field_layer, field_place};
ghost use Rattle.forms.specs.Printed.{layer_name};

use std::fmt;

// The layer of the software whose rule was broken.
#[derive(Clone, Copy, Debug, PartialEq, Eq)]
pub enum Layer {
    Scan,
    Field,
    Card,
    Writer,
    Symbol,
    Book,
}

// Writes the name.
impl fmt::Display for Layer {
    ghost output = { λ l. Some (layer_name l) };

    fn fmt<W: fmt::Write>(&self, f: &mut fmt::Formatter<W>) -> fmt::Result {
        f.write_str(match self {
            Layer::Scan => "scan",
            Layer::Field => "field",
            Layer::Card => "card",
            Layer::Writer => "writer",
            Layer::Symbol => "symbol",
            Layer::Book => "book",
        })
    }
}

// What every refusal tells: its number, the layer whose rule was broken, and a place, counted from 0.
// A place is a `u128`, so that the place of a byte in a field that begins anywhere is told exactly.
pub trait Fault {
    ghost numbered: { Self → ℕ };

    ghost layered: { Self → Layer };

    ghost placed: { Self → ℕ };

    // The number, from the table of refusals.
    fn number(&self) -> u8
        ensures { result ≡ numbered self.now };

    // The layer whose rule was broken.
    fn layer(&self) -> Layer
        ensures { result ≡ layered self.now };

    // The place; for some refusals another number, as the table says.
    fn place(&self) -> u128
        ensures { result ≡ placed self.now };
}

// Why a field is refused.
#[derive(Clone, Copy, Debug, PartialEq, Eq)]
pub enum FieldFault {
    // a length that the form never has; the field
    Length { place: u128 },
    // a byte that the form bars; the first such byte
    Barred { place: u128 },
    // the check digit does not fit the digits before it; the field's last byte
    CheckDigit { place: u128 },
    // no such date or time; the field
    NoSuchTime { place: u128 },
    // more than five decimals; the field
    Decimals { place: u128 },
}

impl Fault for FieldFault {
    ghost numbered = { field_number };

    ghost layered = { field_layer };

    ghost placed = { field_place };

    fn number(&self) -> u8 {
        match self {
            FieldFault::Length { .. } => 4,
            FieldFault::Barred { .. } => 5,
            FieldFault::CheckDigit { .. } => 6,
            FieldFault::NoSuchTime { .. } => 7,
            FieldFault::Decimals { .. } => 8,
        }
    }

    fn layer(&self) -> Layer {
        match self {
            FieldFault::Length { .. } => Layer::Scan,
            _ => Layer::Field,
        }
    }

    fn place(&self) -> u128 {
        match self {
            FieldFault::Length { place }
            | FieldFault::Barred { place }
            | FieldFault::CheckDigit { place }
            | FieldFault::NoSuchTime { place }
            | FieldFault::Decimals { place } => *place,
        }
    }
}
