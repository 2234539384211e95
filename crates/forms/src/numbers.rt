// Digits, the numbers that they write, and the digits that write a number.
ghost use Rattle.std.specs.Prelude.{◌≡◌, ◌+◌, ◌<◌, ◌≤◌, true, ◌++◌, length, drop, decimal};
ghost use Rattle.forms.specs.Bytes.{digit, every, number, pair, two, last_digits};

// Bytes that are digits, all of them.
#[derive(Clone, Copy)]
pub(crate) struct Digits<'a> {
    pub(crate) bytes: &'a [u8],
    ghost only: { every digit bytes.now ≡ true },
}

impl<'a> Digits<'a> {
    // The number that at most eight digits write.
    pub(crate) fn number(self) -> u32
        requires { length self.bytes.now ≤ 8 }
        ensures { result ≡ number self.entry.bytes.now }
    {
        let mut n: u32 = 0;
        for b in self.bytes {
            n = 10 * n + u32::from(*b - b'0');
        }
        n
    }

    // The number that the two digits from `i` on write.
    pub(crate) fn pair(self, i: usize) -> u8
        requires { i + 1 < length self.bytes.now }
        ensures is { result ≡ pair self.entry.bytes.now i }
        ensures small { result < 100 }
    {
        10 * (self.bytes[i] - b'0') + (self.bytes[i + 1] - b'0')
    }

    // The digits from `i` on.
    pub(crate) fn behind(self, i: usize) -> Digits<'a>
        requires { i ≤ length self.bytes.now }
        ensures { result.bytes.now ≡ drop i self.entry.bytes.now }
    {
        Digits {
            bytes: &self.bytes[i..],
        }
    }
}

// The two digits that write a number below a hundred.
pub(crate) fn two_digits(n: u8) -> [u8; 2]
    ensures { result ≡ two n }
{
    [b'0' + n / 10, b'0' + n % 10]
}

// The last `N` digits that write a number, zeros in front where it has fewer.
pub fn last_digits<const N: usize>(n: u64) -> [u8; N]
    ensures { result ≡ last_digits N n }
{
    let mut digits = [0; N];
    let mut rest = n;
    // Kept: an index, since nothing is known of an array after `iter_mut().rev()`.
    for i in (0..N).rev() {
        digits[i] = b'0' + (rest % 10) as u8;
        rest /= 10;
    }
    digits
}

// Writes a number, without zeros in front, over the first bytes of `out`, and says how many it wrote.
// Kept: the standard library prints a number only to a writer that may fail, and by a rule of the project no crate is trusted beyond it.
pub(crate) fn write_decimal(n: u32, out: &mut [u8; 30]) -> usize
    ensures long { result ≡ length (decimal n) }
    ensures wrote { out.new ≡ decimal n ++ drop result out.old }
{
    if n < 10 {
        out[0] = b'0' + n as u8;
        1
    } else {
        let k = write_decimal(n / 10, out);
        out[k] = b'0' + (n % 10) as u8;
        k + 1
    }
}
