// Bytes and numbers as they are shown.
ghost use Rattle.std.specs.Prelude.{◌≡◌, ◌<◌, ◌++◌, is_ok, if◌then◌else◌, decimal};
ghost use Rattle.commands.specs.Shows.{hex_digit, shown_byte, shown_bytes, ReadsBack};

use std::alloc::{AllocError, Global};

// The capital hexadecimal digit of that value.
// Kept: by hand, since `{:X}` of the library has no stated output.
fn hex_digit(value: u8) -> u8
    requires { value < 16 }
    ensures { result ≡ hex_digit value }
{
    if value < 10 {
        b'0' + value
    } else {
        b'A' + (value - 10)
    }
}

// Adds to `out` what shows the byte; where there is no memory, nothing.
fn show_byte(b: u8, out: &mut Vec<u8>) -> Result<(), AllocError>
    ensures { out.new.items ≡ (if is_ok result then out.old.items ++ shown_byte b else out.old.items) }
{
    match b {
        29 => out.extend_from_slice(b"^"),
        32..=91 | 93 | 95..=126 => out.extend_from_slice(&[b]),
        _ => out.extend_from_slice(&[b'\\', hex_digit(b / 16), hex_digit(b % 16)]),
    }
}

// Adds to `out` what shows the bytes: byte 29 as `^`, the bytes from the space to the tilde as themselves but for
// `^` and the backslash, any other byte as a backslash and two capital hexadecimal digits.
// What is shown reads back as the bytes. Where there is no memory, `out` is as before.
// Kept: a Display writes piece by piece, and could not leave `out` as before where there is no memory.
pub fn show(bytes: &[u8], out: &mut Vec<u8>) -> Result<(), AllocError>
    ensures after { out.new.items ≡ (if is_ok result then out.old.items ++ shown_bytes bytes.now else out.old.items) }
    ensures back { ReadsBack bytes.now }
{
    let before = out.len();
    for b in bytes {
        if let Err(e) = show_byte(*b, out) {
            out.truncate(before);
            return Err(e);
        }
    }
    Ok(())
}

// Adds to `out` the number in decimal; where there is no memory, nothing.
pub fn show_number(heap: Global, n: u128, out: &mut Vec<u8>) -> Result<(), AllocError>
    ensures { out.new.items ≡ (if is_ok result then out.old.items ++ decimal n else out.old.items) }
{
    let digits = n.to_string(heap)?;
    out.extend_from_slice(digits.as_bytes())
}
