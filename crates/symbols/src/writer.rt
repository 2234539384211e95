// Writes symbols, element by element.
ghost use Rattle.std.specs.Prelude.{◌≡◌, length};
ghost use Rattle.symbols.specs.Encoding.{fixed_length, misfits, separated, clean};
ghost use Rattle.symbols.specs.Writing.{Begins, Admits, Adds, Closes, Seals, stage};
ghost use Rattle.symbols.specs.Laws.{CountsRight, ReadsBack};

use crate::code::{CodeSet, SEPARATOR, START_C, STOP};
use crate::encode::{check_on, encode, pair_value};
use crate::fault::{AddFault, WriterFault};
use crate::state::Open;
use books::predefined::predefined_length;
use buffers::buffer::Buffer;
use forms::bytes::{DigitByte, TextByte, passed};

// Begins a symbol: writes its start and the value that marks it over the first two bytes of `buf`.
pub fn begin(buf: &mut [u8]) -> Result<Open, WriterFault>
    ensures { Begins result buf.old buf.new }
{
    if buf.len() < 2 {
        return Err(WriterFault { needed: 2 });
    }
    buf[0] = START_C;
    buf[1] = SEPARATOR;
    Ok(Open {
        len: 2,
        sum: 1,
        set: CodeSet::C,
        bytes: 0,
        pending: false,
    })
}

// The length that an element's first two digits predefine, if they do.
fn fixed_length(element: &[u8]) -> Option<u8>
    ensures { result ≡ fixed_length element.now }
{
    match element {
        [a @ b'0'..=b'9', b @ b'0'..=b'9', ..] => predefined_length(pair_value(*a, *b)),
        _ => None,
    }
}

// The element needs a separator, if another element follows.
fn needs_separator(element: &[u8]) -> bool
    ensures { result ≡ separated element.now }
{
    fixed_length(element).is_none()
}

// How many bytes stand before the first that an element bars.
fn clean_bytes(element: &[u8]) -> usize
    ensures { result ≡ clean element.now }
{
    let digits = passed::<DigitByte>(element);
    if digits < 2 {
        digits
    } else {
        passed::<TextByte>(element)
    }
}

// The element is not of its predefined length, or has not even two bytes.
fn wrong_length(element: &[u8]) -> bool
    ensures { result ≡ misfits (length element.now) (fixed_length element.now) }
{
    match fixed_length(element) {
        Some(n) => element.len() != usize::from(n),
        None => element.len() < 2,
    }
}

// How many bytes of data the symbol has with the element, if no rule bars it.
fn admitted(symbol: &Open, element: &[u8]) -> Result<usize, AddFault>
    ensures { Admits result (stage symbol.now) element.now }
{
    if wrong_length(element) {
        return Err(AddFault::Length);
    }
    let place = clean_bytes(element);
    if place < element.len() {
        return Err(AddFault::Barred { place });
    }
    let length = symbol.bytes as u128 + (u128::from(symbol.pending) + element.len() as u128);
    if length > 48 {
        return Err(AddFault::TooLong { length });
    }
    Ok(length as usize)
}

// Adds an element: writes the separator, if the last element needs one, and the element's values.
// Refused, it gives the symbol back, and `buf` stays as it was.
pub fn add(symbol: Open, buf: &mut [u8], element: &[u8]) -> Result<Open, (Open, AddFault)>
    ensures { Adds result symbol element.now buf.old buf.new }
{
    // Kept: a match, since a refusal gives back the symbol, which the lines below still need.
    let bytes = match admitted(&symbol, element) {
        Ok(bytes) => bytes,
        Err(fault) => return Err((symbol, fault)),
    };
    // a separator, and at most two values for each of 48 bytes
    let mut written = Buffer::<97>::new();
    if symbol.pending {
        written.push(&[SEPARATOR]).unwrap();
    }
    let set = encode(symbol.set, element, &mut written);
    let values = written.as_slice();
    let len = symbol.len + values.len();
    if buf.len() < len {
        return Err((symbol, AddFault::Full(WriterFault { needed: len })));
    }
    buf[symbol.len..len].copy_from_slice(values);
    Ok(Open {
        len,
        sum: check_on(symbol.sum, symbol.len, values),
        set,
        bytes,
        pending: needs_separator(element),
    })
}

// Writes the check value and the stop of a symbol.
fn close(symbol: &Open, buf: &mut [u8]) -> Result<usize, WriterFault>
    ensures { Closes result (stage symbol.now) buf.old buf.new }
{
    let needed = symbol.len + 2;
    if buf.len() < needed {
        return Err(WriterFault { needed });
    }
    buf[symbol.len] = symbol.sum;
    buf[symbol.len + 1] = STOP;
    Ok(needed)
}

// Seals a symbol: writes the check value of what begin and add wrote, and the stop; answers how many values the symbol has.
// Refused, it gives the symbol back, and `buf` stays as it was.
pub fn seal(symbol: Open, buf: &mut [u8]) -> Result<usize, (Open, WriterFault)>
    ensures does { Seals result symbol buf.old buf.new }
    ensures counts { CountsRight }
    ensures reads { ReadsBack }
{
    close(&symbol, buf).map_err(|fault| (symbol, fault))
}
