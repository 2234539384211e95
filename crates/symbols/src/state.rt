// An open symbol.
ghost use Rattle.std.specs.Prelude.{◌+◌, ◌*◌, ◌<◌, ◌≤◌};

use crate::code::CodeSet;

// What is to be known of a symbol that is begun and not yet sealed. The values stand in a buffer, which each call is passed.
// Kept: plain numbers, with the buffer passed at each call, which is the form that the project fixes for an open symbol.
// It is moved into each call, so that a sealed symbol is not added to, and not sealed again. It may be let go.
#[derive(Drop)]
pub struct Open {
    // values written
    pub(crate) len: usize,
    // their check value
    pub(crate) sum: u8,
    // the set that they end in
    pub(crate) set: CodeSet,
    // bytes of data in them
    pub(crate) bytes: usize,
    // the last element needs a separator before the next
    pub(crate) pending: bool,
    ghost some: { 2 ≤ len },
    ghost few: { len ≤ 2 + 2 * bytes },
    ghost short: { bytes ≤ 48 },
    ghost small: { sum < 103 },
}
