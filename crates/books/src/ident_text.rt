// The text of an ident.
ghost use Rattle.std.specs.Prelude.{◌≡◌, ◌≤◌};

// The digits that write an ident: the last of four bytes, as many as it has.
// Kept: no buffer that is filled from its front, since all four digits are computed at once and the last of them are the text.
#[derive(Clone, Copy, Debug)]
pub struct IdentText {
    pub(crate) bytes: [u8; 4],
    pub(crate) count: u8,
    ghost most: { count ≤ 4 },
}

impl IdentText {
    ghost use Rattle.books.specs.Shown.{shown};

    // The digits.
    pub fn as_slice(&self) -> &[u8]
        ensures { result.now ≡ shown self.now }
    {
        &self.bytes[4 - usize::from(self.count)..]
    }
}
