// Words, and what stands behind them.
ghost use Rattle.std.specs.Prelude.{◌≡◌, Some, None, MatchOption};
ghost use Rattle.commands.specs.Words.{solid, word, tail, behind, said, trimmed_line};

use forms::bytes::{ByteClass, passed};

// Any byte but the space.
struct SolidByte;

impl ByteClass for SolidByte {
    ghost holds = { solid };

    fn has(b: u8) -> bool {
        b != b' '
    }
}

// What stands before the first space, and the tail that begins with that space; all and nothing where there is none.
pub fn split_word(bytes: &[u8]) -> (&[u8], &[u8])
    ensures front { result.0.now ≡ word bytes.now }
    ensures back { result.1.now ≡ tail bytes.now }
{
    bytes.split_at(passed::<SolidByte>(bytes))
}

// The word of a line and its tail; nothing where the line is silent, since it is empty or begins with `#`.
pub(crate) fn said(line: &[u8]) -> Option<(&[u8], &[u8])>
    ensures { MatchOption result (said line.now ≡ None) (λ p. said line.now ≡ Some (p.0.now, p.1.now)) }
{
    match line {
        [] | [b'#', ..] => None,
        _ => Some(split_word(line)),
    }
}

// What stands behind the space that a tail begins with.
pub fn behind(tail: &[u8]) -> &[u8]
    ensures { result.now ≡ behind tail.now }
{
    match tail {
        [_, rest @ ..] => rest,
        [] => tail,
    }
}

// A line that ended with byte 10, and is given without it, without its last byte, if that is 13.
pub fn trimmed(line: &[u8]) -> &[u8]
    ensures { result.now ≡ trimmed_line line.now }
{
    match line {
        [front @ .., b'\r'] => front,
        _ => line,
    }
}
