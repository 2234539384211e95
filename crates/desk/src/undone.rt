// Why something is not done.
ghost use Rattle.std.specs.Prelude.{◌≡◌};
ghost use Rattle.desk.specs.declared.undone.Undone.TheVariants as undone;

use commands::complaint::Complaint;
use commands::error::Failure;
use forms::fault::Fault;
use forms::refusal::Refusal;
use std::io;

// Why something is not done.
#[derive(Drop)]
pub enum Undone {
    // it is refused
    Refused(Refusal),
    // it cannot be tried, and why
    Untried(Complaint),
    // its answer cannot be written
    Unwritten(io::Error),
}

impl From<Refusal> for Undone {
    ghost from_gives = { λ refusal r. r ≡ undone.Refused refusal };

    fn from(refusal: Refusal) -> Undone {
        Undone::Refused(refusal)
    }
}

impl From<Complaint> for Undone {
    ghost from_gives = { λ complaint r. r ≡ undone.Untried complaint };

    fn from(complaint: Complaint) -> Undone {
        Undone::Untried(complaint)
    }
}

impl From<io::Error> for Undone {
    ghost from_gives = { λ error r. r ≡ undone.Unwritten error };

    fn from(error: io::Error) -> Undone {
        Undone::Unwritten(error)
    }
}

impl<F: Fault + Drop> From<Failure<F>> for Undone {
    fn from(failure: Failure<F>) -> Undone {
        match failure {
            Failure::Refused(fault) => Undone::Refused(fault.into()),
            Failure::Memory(lack) => Undone::Unwritten(lack.into()),
        }
    }
}

// What is not done, since it is refused.
pub fn refused<F: Fault + Drop>(fault: F) -> Undone
    ensures { result ≡ Undone.Refused (record { number = F.Fault.numbered fault; layer = F.Fault.layered fault; place = F.Fault.placed fault }) }
{
    let refusal = Refusal::of(&fault);
    Undone::Refused(refusal)
}
