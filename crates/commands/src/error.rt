// Why something is not done.
ghost use Rattle.std.specs.Prelude.{◌≡◌, alloc_error};
ghost use Rattle.commands.specs.declared.error.Failure.TheVariants as failure;
ghost use Rattle.commands.specs.Failures.{failure_text};

use crate::complaint::Complaint;
use std::alloc::{AllocError, AllocFailed};
use std::error::Error;
use std::fmt;
use std::fmt::{Debug, Display};

// Why something is not done.
#[derive(Clone, Copy, Debug, PartialEq, Eq)]
pub enum Failure<E> {
    // it is refused, and why
    Refused(E),
    // there is no memory
    Memory(AllocError),
}

// Why a line is not read.
pub type LineError = Failure<Complaint>;

impl From<Complaint> for LineError {
    ghost from_gives = { λ complaint e. e ≡ failure.Refused complaint };

    fn from(complaint: Complaint) -> LineError {
        Failure::Refused(complaint)
    }
}

impl<E> From<AllocError> for Failure<E> {
    ghost from_gives = { λ _ e. e ≡ failure.Memory alloc_error };

    fn from(lack: AllocError) -> Failure<E> {
        Failure::Memory(lack)
    }
}

impl<E, T: Drop> From<AllocFailed<T>> for Failure<E> {
    ghost from_gives = { λ _ e. e ≡ failure.Memory alloc_error };

    fn from(lack: AllocFailed<T>) -> Failure<E> {
        Failure::Memory(lack.into())
    }
}

// Writes why it is refused, or that memory lacks.
impl<E: Display> Display for Failure<E> {
    ghost output = { failure_text E.output };

    fn fmt<W: fmt::Write>(&self, f: &mut fmt::Formatter<W>) -> fmt::Result {
        match self {
            Failure::Refused(why) => Display::fmt(why, f),
            Failure::Memory(lack) => Display::fmt(lack, f),
        }
    }
}

impl<E: Debug + Display + Drop> Error for Failure<E> {}
