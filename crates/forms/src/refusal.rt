// What a refusal tells, whatever was refused.
ghost use Rattle.std.specs.Prelude.{◌≡◌, Some};
ghost use Rattle.forms.specs.Refusals.{refusal_text};

use crate::fault::{Fault, Layer};
use std::fmt;

// What a refusal tells: its number, the layer whose rule was broken, and a place.
#[derive(Clone, Copy, Debug, PartialEq, Eq)]
pub struct Refusal {
    pub number: u8,
    pub layer: Layer,
    pub place: u128,
}

impl Refusal {
    // What that fault tells.
    pub fn of<F: Fault>(fault: &F) -> Refusal
        ensures { result ≡ record { number = F.Fault.numbered fault.now; layer = F.Fault.layered fault.now; place = F.Fault.placed fault.now } }
    {
        Refusal {
            number: fault.number(),
            layer: fault.layer(),
            place: fault.place(),
        }
    }
}

impl<F: Fault + Drop> From<F> for Refusal {
    ghost from_gives = { λ fault r. r ≡ record { number = F.Fault.numbered fault; layer = F.Fault.layered fault; place = F.Fault.placed fault } };

    fn from(fault: F) -> Refusal {
        Refusal::of(&fault)
    }
}

// Writes the number, the layer and the place.
impl fmt::Display for Refusal {
    ghost output = { λ r. Some (refusal_text r.number r.layer r.place) };

    fn fmt<W: fmt::Write>(&self, f: &mut fmt::Formatter<W>) -> fmt::Result {
        let Refusal {
            number,
            layer,
            place,
        } = *self;
        write!(f, "refused {number} {layer} {place}")
    }
}
