// A buffer of a fixed size.
ghost use Rattle.std.specs.Prelude.{◌≡◌, ◌≤◌, length};

// At most N bytes, in memory of its own, filled from its front. It owns its memory, and asks for none.
// Kept: an array with a length beside it, since this is the type that stands for that, in fixed memory. (The packed bytes of a text
// or a key are plain data without a rule, so that every value there is can be written; an ident's text is the end of its array.)
#[derive(Clone, Copy)]
pub struct Buffer<const N: usize> {
    pub(crate) bytes: [u8; N],
    pub(crate) len: usize,
    ghost long: { length bytes ≡ N },
    ghost within: { len ≤ N },
}
