// Bytes of any number up to a bound, in memory of their own.
ghost use Rattle.std.specs.Prelude.{◌≡◌, ◌<◌, ◌≤◌, ◌++◌, length, drop};
ghost use Rattle.forms.specs.Packs.{packed, unpacked};

use crate::bytes::put;

// At most `N` bytes: the first `len` of `bytes`.
// Kept: fixed memory, since the library asks for none.
#[derive(Clone, Copy)]
pub struct Packed<const N: usize> {
    pub(crate) bytes: [u8; N],
    pub(crate) len: u8,
}

impl<const N: usize> Packed<N> {
    // These bytes.
    pub(crate) fn of(bytes: &[u8]) -> Self
        requires fits { length bytes.now ≤ N }
        requires short { length bytes.now < 256 }
        ensures { result ≡ packed N bytes.now }
    {
        let mut packed = Packed {
            bytes: [0; N],
            len: bytes.len() as u8,
        };
        put(&mut packed.bytes, bytes);
        packed
    }

    // Writes the bytes over the first bytes of `out`, and says how many it wrote.
    pub(crate) fn write(&self, out: &mut [u8; 30]) -> usize
        requires { N ≤ 30 }
        ensures long { result ≡ length (unpacked self.now) }
        ensures wrote { out.new ≡ unpacked self.now ++ drop result out.old }
    {
        let n = usize::from(self.len).min(N);
        put(out, &self.bytes[..n]);
        n
    }
}
