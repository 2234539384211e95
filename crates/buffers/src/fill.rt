// Filling a buffer, and reading what it has.
ghost use Rattle.std.specs.Prelude.{◌≡◌, ◌+◌, ◌<◌, [], ◌++◌, length, MatchResult};
ghost use Rattle.buffers.specs.Shown.{shown};

use crate::buffer::Buffer;

// There is no room in a buffer.
#[derive(Clone, Copy, Debug, PartialEq, Eq)]
pub struct Full;

impl<const N: usize> Buffer<N> {
    // A buffer of no bytes.
    pub fn new() -> Buffer<N>
        ensures { shown result ≡ [] }
    {
        Buffer {
            bytes: [0; N],
            len: 0,
        }
    }

    // The bytes.
    pub fn as_slice(&self) -> &[u8]
        ensures { result.now ≡ shown self.now }
    {
        let bytes = &self.bytes[..];
        &bytes[0..self.len]
    }

    // Puts bytes behind those that it has; or refuses where they are more than there is room for, and it is as it was.
    pub fn push(&mut self, bytes: &[u8]) -> Result<(), Full>
        ensures { MatchResult result (λ _. shown self.new ≡ shown self.old ++ bytes.now) (λ _. (N < length (shown self.old) + length bytes.now) × (self.new ≡ self.old)) }
    {
        if bytes.len() > N - self.len {
            return Err(Full);
        }
        let end = self.len + bytes.len();
        let all = &mut self.bytes[..];
        all[self.len..end].copy_from_slice(bytes);
        self.len = end;
        Ok(())
    }
}
