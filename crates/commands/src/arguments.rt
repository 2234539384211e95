// Numbers as arguments: behind each space of a tail stands one.
ghost use Rattle.std.specs.Prelude.{◌≡◌, ◌≤◌, ℕ, List, map, length, ok_or, IsOkAnd};
ghost use Rattle.std.specs.Iterator.{at_most, YieldsFirstBy};
ghost use Rattle.commands.specs.declared.complaint.Complaint.TheVariants.{BadNumber};
ghost use Rattle.commands.specs.Judgements.{judged, Says};
ghost use Rattle.commands.specs.Meanings.{no_arguments};
ghost use Rattle.commands.specs.Numerals.{number_up_to, only_number, number_or, all_numbers};
ghost use Rattle.commands.specs.Widths.{u8_holds, u16_holds, u32_holds};
ghost use Rattle.commands.specs.Words.{arguments};

use crate::complaint::Complaint;
use crate::cut::{behind, split_word};
use crate::error::LineError;
use crate::number::number;
use std::alloc::Global;
use std::num::TryFromIntError;

// The arguments in a tail.
#[derive(Clone, Copy)]
pub(crate) struct Arguments<'a> {
    pub(crate) tail: &'a [u8],
}

impl<'a> Iterator for Arguments<'a> {
    type Item = &'a [u8];

    ghost next_gives = { YieldsFirstBy (λ piece. piece.now) (λ s. arguments s.tail.now) };

    ghost remaining = { λ s. at_most (length s.tail.now) };

    fn next(&mut self) -> Option<&'a [u8]> {
        if self.tail.is_empty() {
            return None;
        }
        let (piece, tail) = split_word(behind(self.tail));
        self.tail = tail;
        Some(piece)
    }
}

// A bad number, if there is an argument.
pub(crate) fn no_arguments(tail: &[u8]) -> Result<(), Complaint>
    ensures { result ≡ no_arguments (arguments tail.now) }
{
    match (Arguments { tail }).next() {
        None => Ok(()),
        Some(_) => Err(Complaint::BadNumber),
    }
}

// Numbers of one width.
pub(crate) trait Width: TryFrom<u64, Error = TryFromIntError> + Copy {
    // The number that a value is.
    ghost worth: { Self → ℕ };

    // The largest of them.
    ghost MOST: { ℕ };

    const MOST: u64;

    // Every number up to the largest is the number of a value.
    ghost holds: { (n : ℕ) (r : _) → n ≤ MOST → Self.try_from_gives n r → IsOkAnd r (λ x. worth x ≡ n) };
}

impl Width for u8 {
    ghost worth = { λ n. n };

    ghost MOST = { 255 };

    const MOST: u64 = 255;

    ghost holds = { u8_holds };
}

impl Width for u16 {
    ghost worth = { λ n. n };

    ghost MOST = { 65535 };

    const MOST: u64 = 65535;

    ghost holds = { u16_holds };
}

impl Width for u32 {
    ghost worth = { λ n. n };

    ghost MOST = { 4294967295 };

    const MOST: u64 = 4294967295;

    ghost holds = { u32_holds };
}

// The number that a piece writes, if it has the width.
fn numeral<T: Width>(piece: &[u8]) -> Result<T, Complaint>
    ensures { judged T.Width.worth result ≡ ok_or (number_up_to T.Width.MOST piece.now) BadNumber }
{
    let n = number(piece, T::MOST).ok_or(Complaint::BadNumber)?;
    T::try_from(n).map_err(|_| Complaint::BadNumber)
}

// The number of exactly one argument, if it has the width.
pub(crate) fn only_number<T: Width>(tail: &[u8]) -> Result<T, Complaint>
    ensures { judged T.Width.worth result ≡ ok_or (only_number T.Width.MOST (arguments tail.now)) BadNumber }
{
    let mut args = Arguments { tail };
    match (args.next(), args.next()) {
        (Some(piece), None) => numeral(piece),
        _ => Err(Complaint::BadNumber),
    }
}

// The number of at most one argument, if it is at most `most`; `default` where there is none.
pub(crate) fn number_or(tail: &[u8], default: u64, most: u64) -> Result<u64, Complaint>
    ensures { result ≡ ok_or (number_or default most (arguments tail.now)) BadNumber }
{
    let mut args = Arguments { tail };
    match (args.next(), args.next()) {
        (None, _) => Ok(default),
        (Some(piece), None) => number(piece, most).ok_or(Complaint::BadNumber),
        _ => Err(Complaint::BadNumber),
    }
}

// The numbers of any count of arguments, if each has the width.
pub(crate) fn all_numbers<T: Width>(heap: Global, tail: &[u8]) -> Result<Vec<T>, LineError>
    ensures { Says (λ v. map T.Width.worth v.items) result (ok_or (all_numbers T.Width.MOST (arguments tail.now)) BadNumber) }
{
    let mut out = Vec::new(heap);
    for piece in (Arguments { tail }) {
        out.push(numeral(piece)?)?;
    }
    Ok(out)
}
