// The canonical string of a card.
ghost use Rattle.std.specs.Prelude.{◌≡◌, ◌+◌, ◌≤◌, false, [], map, ◌++◌, length};
ghost use Rattle.buffers.specs.Shown.{shown};
ghost use Rattle.cards.specs.Rows.{held_in};
ghost use Rattle.cards.specs.Cards.{tally};
ghost use Rattle.cards.specs.Strings.{piece, spelled_after, canonical, Writes};

use crate::card::Card;
use crate::row::Row;
use buffers::buffer::Buffer;
use symbols::fault::WriterFault;

// As many bytes as 32 elements of at most 34 bytes and the separators between them can have.
const LONGEST: usize = 1120;

// Puts bytes behind those of a buffer that has room for them.
pub(crate) fn put<const N: usize>(buffer: &mut Buffer<N>, bytes: &[u8])
    requires { length (shown buffer.old) + length bytes.now ≤ N }
    ensures { shown buffer.new ≡ shown buffer.old ++ bytes.now }
{
    buffer.push(bytes).unwrap();
}

// Puts a row's element as it is written, ident and writing, behind the bytes of a buffer that has room for it.
fn put_piece<const N: usize>(buffer: &mut Buffer<N>, row: &Row)
    requires { length (shown buffer.old) + 34 ≤ N }
    ensures is { shown buffer.new ≡ shown buffer.old ++ piece (held_in row.now) }
    ensures most { length (shown buffer.new) ≤ length (shown buffer.old) + 34 }
{
    put(buffer, row.entry.ident.text().as_slice());
    put(buffer, row.writing());
}

// A row's element as it is written.
pub(crate) fn piece(row: &Row) -> Buffer<34>
    ensures { shown result ≡ piece (held_in row.now) }
{
    let mut piece = Buffer::new();
    put_piece(&mut piece, row);
    piece
}

// How many bytes a row's element has as it is written.
pub(crate) fn piece_length(row: &Row) -> usize
    ensures is { result ≡ length (piece (held_in row.now)) }
    ensures most { result ≤ 34 }
{
    usize::from(row.entry.ident.digits) + row.writing().len()
}

// Puts rows one behind the other, with the separators between them, into an empty buffer.
fn spell(rows: &[Row], string: &mut Buffer<LONGEST>)
    requires few { length rows.now ≤ 32 }
    requires empty { shown string.old ≡ [] }
    ensures { shown string.new ≡ spelled_after false (map held_in rows.now) }
{
    let mut pending = false;
    for row in rows {
        if pending {
            put(string, &[29]);
        }
        put_piece(string, row);
        pending = !row.entry.ident.predefined();
    }
}

// Writes bytes over the first of `out`, or refuses where it is too short, and `out` stays.
pub(crate) fn write_over(bytes: &[u8], out: &mut [u8]) -> Result<usize, WriterFault>
    ensures { Writes bytes.now out.old out.new result }
{
    let needed = bytes.len();
    if out.len() < needed {
        return Err(WriterFault { needed });
    }
    out[0..needed].copy_from_slice(bytes);
    Ok(needed)
}

impl Card {
    // Writes the canonical string over the first bytes of `out`, and says how many it has; or refuses where `out` is too short.
    pub fn canonical(&self, out: &mut [u8]) -> Result<usize, WriterFault>
        ensures { Writes (canonical (tally self.now)) out.old out.new result }
    {
        let mut string = Buffer::new();
        spell(self.held(), &mut string);
        write_over(string.as_slice(), out)
    }
}
