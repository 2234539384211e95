// A row of a card: an element that is held.
ghost use Rattle.std.specs.Prelude.{◌≡◌, ◌≤◌, true, length, take};
ghost use Rattle.forms.specs.Bytes.{allowed, every};
ghost use Rattle.forms.specs.Values.{told, written};

use books::entry::Entry;
use forms::value::Value;

// An element that is held: its entry, its value, and beside the value its writing, the first `len` bytes of `text`.
// A text's bytes are its writing. The writing has a length that the entry allows, and bytes that a text may hold.
// Kept: an array with its length beside it, since a card is fixed memory, and as a writing is lent: 30 bytes and how many it wrote.
#[derive(Clone, Copy)]
pub struct Row {
    pub(crate) entry: Entry,
    pub(crate) value: Value,
    pub(crate) text: [u8; 30],
    pub(crate) len: u8,
    ghost long: { length text ≡ 30 },
    ghost short: { len ≤ 30 },
    ghost wrote: { take len text ≡ written (told value text) },
    ghost least: { entry.shortest ≤ len },
    ghost most: { len ≤ entry.longest },
    ghost plain: { every allowed (take len text) ≡ true },
}
