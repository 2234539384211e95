// Why a scan is refused.
ghost use Rattle.std.specs.Prelude.{◌≡◌};
ghost use Rattle.scans.specs.Faults.{scan_number, scan_layer, scan_place};
ghost use Rattle.scans.specs.declared.fault.ScanFault.TheVariants.{Field};

use forms::fault::{Fault, FieldFault, Layer};

// Why a scan is refused. Places count from the scan's first byte.
#[derive(Clone, Copy, Debug, PartialEq, Eq)]
pub enum ScanFault {
    // no `]C1` in front
    NoMark,
    // a separator where an ident should begin; there
    Separator { place: usize },
    // the book finds nothing; the ident
    Unknown { place: usize },
    // a predefined field is cut short, or another length is not allowed; the ident
    Length { place: usize },
    // the field has a fault, which is told whole
    Field(FieldFault),
    // the ident equals, begins or is begun by that of a held element of another entry; the ident
    Clash { place: usize },
    // held with another value; the ident
    Differs { place: usize },
    // as many others as can be are held; the ident
    Full { place: usize },
}

impl From<FieldFault> for ScanFault {
    ghost from_gives = { λ f r. r ≡ Field f };

    fn from(fault: FieldFault) -> ScanFault {
        ScanFault::Field(fault)
    }
}

impl Fault for ScanFault {
    ghost numbered = { scan_number };

    ghost layered = { scan_layer };

    ghost placed = { scan_place };

    fn number(&self) -> u8 {
        match self {
            ScanFault::NoMark => 1,
            ScanFault::Separator { .. } => 2,
            ScanFault::Unknown { .. } => 3,
            ScanFault::Length { .. } => 4,
            ScanFault::Field(fault) => fault.number(),
            ScanFault::Clash { .. } => 9,
            ScanFault::Differs { .. } => 10,
            ScanFault::Full { .. } => 11,
        }
    }

    fn layer(&self) -> Layer {
        match self {
            ScanFault::Field(fault) => fault.layer(),
            ScanFault::Clash { .. } | ScanFault::Differs { .. } | ScanFault::Full { .. } =>
                Layer::Card,
            _ => Layer::Scan,
        }
    }

    fn place(&self) -> u128 {
        match self {
            ScanFault::NoMark => 0,
            ScanFault::Separator { place }
            | ScanFault::Unknown { place }
            | ScanFault::Length { place }
            | ScanFault::Clash { place }
            | ScanFault::Differs { place }
            | ScanFault::Full { place } => *place as u128,
            ScanFault::Field(fault) => fault.place(),
        }
    }
}
