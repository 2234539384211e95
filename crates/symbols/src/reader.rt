// Reads symbols.
ghost use Rattle.std.specs.Prelude.{◌≡◌, ◌+◌, ◌^◌, ◌<◌, [], length, Ok, Err, MatchOption, MatchResult};
ghost use Rattle.buffers.specs.Shown.{shown};
ghost use Rattle.symbols.specs.Reading.{no_use, meaning, meant, read_on, Decodes};

use crate::code::{CodeSet, SEPARATOR, STOP, TO_B, TO_C};
use crate::encode::check_on;
use crate::fault::SymbolFault;
use buffers::buffer::Buffer;

// What a value says.
#[derive(Clone, Copy)]
enum Said {
    // two digits
    Pair(u8, u8),
    // one byte of data, which may be the separator's
    Byte(u8),
    // reading goes on in the other set
    Change,
}

// What a value says in its set, if it has a use there.
// Kept: the set and the value are matched together, which is the form that the project fixes for the decoder.
fn read_value(set: CodeSet, value: u8) -> Option<Said>
    ensures { MatchOption result (meaning set value ≡ no_use) (λ said. meaning set value ≡ meant set said) }
{
    Some(match (set, value) {
        (CodeSet::C, pair @ 0..=99) => Said::Pair(b'0' + pair / 10, b'0' + pair % 10),
        (CodeSet::C, TO_B) => Said::Change,
        (CodeSet::B, byte @ 0..=95) => Said::Byte(byte + 32),
        (CodeSet::B, TO_C) => Said::Change,
        (_, SEPARATOR) => Said::Byte(29),
        _ => return None,
    })
}

// Reads a symbol's body, which stands from place 2 on, to its data.
fn read_body(start: CodeSet, body: &[u8]) -> Result<Buffer<48>, SymbolFault>
    requires { length body.now + 2 < 2 ^ 64 }
    ensures { MatchResult result (λ text. read_on start 2 [] body.now ≡ Ok (shown text)) (λ f. read_on start 2 [] body.now ≡ Err f) }
{
    let mut set = start;
    let mut text = Buffer::new();
    for (i, value) in body.iter().enumerate() {
        let place = i + 2;
        let said = read_value(set, *value).ok_or(SymbolFault::NoUse { place })?;
        let pushed = match said {
            Said::Pair(a, b) => text.push(&[a, b]),
            Said::Byte(b) => text.push(&[b]),
            Said::Change => {
                set = set.other();
                Ok(())
            }
        };
        pushed.map_err(|_| SymbolFault::TooLong { place })?;
    }
    Ok(text)
}

// Reads a symbol, and writes its data over the first bytes of `out`; answers how many bytes that are.
// Refused, `out` stays as it was.
pub fn decode(values: &[u8], out: &mut [u8; 48]) -> Result<usize, SymbolFault>
    ensures { Decodes result values.now out.old out.new }
{
    let len = values.len();
    let [start, mark, .., check, stop] = values else {
        return Err(SymbolFault::Frame { place: len });
    };
    let set = CodeSet::of_start(*start).ok_or(SymbolFault::Frame { place: 0 })?;
    if *mark != SEPARATOR {
        return Err(SymbolFault::Frame { place: 1 });
    }
    if *stop != STOP {
        return Err(SymbolFault::Frame { place: len - 1 });
    }
    if *check != check_on(*start, 1, &values[1..len - 2]) {
        return Err(SymbolFault::CheckValue { place: len - 2 });
    }
    let text = read_body(set, &values[2..len - 2])?;
    let data = text.as_slice();
    out[..data.len()].copy_from_slice(data);
    Ok(data.len())
}
