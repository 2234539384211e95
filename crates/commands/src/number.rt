// Decimal numbers.
ghost use Rattle.std.specs.Prelude.{◌≡◌, ◌+◌, ◌*◌, ◌<◌, if◌then◌else◌, Some, None, nat_le};
ghost use Rattle.commands.specs.Numerals.{number_up_to};

// The number whose digits are those of `n` and then `digit`, if it is at most `most`.
fn with_digit(n: u64, digit: u64, most: u64) -> Option<u64>
    ensures { result ≡ (if nat_le (10 * n + digit) most then Some (10 * n + digit) else None) }
{
    let n = n.checked_mul(10)?.checked_add(digit)?;
    (n <= most).then_some(n)
}

// The number that the bytes write in decimal, if they are digits, one or more, and it is at most `most`.
pub fn number(bytes: &[u8], most: u64) -> Option<u64>
    ensures { result ≡ number_up_to most bytes.now }
{
    if bytes.is_empty() {
        return None;
    }
    let mut n = 0;
    for b in bytes {
        if !b.is_ascii_digit() {
            return None;
        }
        n = with_digit(n, u64::from(*b - b'0'), most)?;
    }
    Some(n)
}
