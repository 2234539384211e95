// Bytes as they are written in a line.
ghost use Rattle.std.specs.Prelude.{◌≡◌, Some, None, MatchOption, ok_or, vec_items};
ghost use Rattle.commands.specs.declared.complaint.Complaint.TheVariants.{BadEscape};
ghost use Rattle.commands.specs.Escapes.{hex_value, front_byte, unescaped};
ghost use Rattle.commands.specs.Judgements.{Says};

use crate::complaint::Complaint;
use crate::error::LineError;
use std::alloc::Global;

// Kept: by hand, since three ranges say it, and the value of a digit of the library is a number of 32 bits of a `char`.
// The value of a hexadecimal digit, in capitals or not.
fn hex_value(b: u8) -> Option<u8>
    ensures { result ≡ hex_value b }
{
    match b {
        b'0'..=b'9' => Some(b - b'0'),
        b'A'..=b'F' => Some(b - b'A' + 10),
        b'a'..=b'f' => Some(b - b'a' + 10),
        _ => None,
    }
}

// The byte that the front of a writing stands for, and the writing behind it.
fn front_byte(writing: &[u8]) -> Option<(u8, &[u8])>
    ensures { MatchOption result (front_byte writing.now ≡ None) (λ p. front_byte writing.now ≡ Some (p.0, p.1.now)) }
{
    match writing {
        [b'\\', high, low, rest @ ..] => {
            let high = hex_value(*high)?;
            let low = hex_value(*low)?;
            Some((16 * high + low, rest))
        }
        [b'^', rest @ ..] => Some((29, rest)),
        [b'\\', ..] | [] => None,
        [b, rest @ ..] => Some((*b, rest)),
    }
}

// The bytes that a writing stands for: `^` is byte 29, a backslash and two hexadecimal digits are that byte,
// any other byte is itself. A backslash before anything else is a bad escape.
pub fn unescape(heap: Global, writing: &[u8]) -> Result<Vec<u8>, LineError>
    ensures { Says vec_items result (ok_or (unescaped writing.now) BadEscape) }
{
    let mut out = Vec::new(heap);
    let mut rest = writing;
    while !rest.is_empty() {
        let (b, behind) = front_byte(rest).ok_or(Complaint::BadEscape)?;
        out.push(b)?;
        rest = behind;
    }
    Ok(out)
}
