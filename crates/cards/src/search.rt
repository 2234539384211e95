// Where an element stands, or would stand, among rows.
ghost use Rattle.std.specs.Prelude.{◌≡◌, ◌<◌, ◌≤◌, length, IfSome, position};
ghost use Rattle.std.specs.List.{list_any, position_or_len};
ghost use Rattle.std.specs.Str.{bytes_eq};
ghost use Rattle.cards.specs.Rows.{held_in};
ghost use Rattle.cards.specs.Tallies.{crosses_one, ident as identOf, precedes};

use crate::row::Row;
use books::entry::Entry;

// Whether a row is of another entry, and has an ident that equals, begins or is begun by the entry's.
fn is_crossed(row: &Row, entry: &Entry) -> bool
    ensures { result ≡ crosses_one entry.now (held_in row.now) }
{
    !entry.same(&row.entry) & entry.ident.overlaps(&row.entry.ident)
}

// Whether a row of another entry has an ident that equals, begins or is begun by the entry's.
pub(crate) fn crosses(rows: &[Row], entry: &Entry) -> bool
    ensures { result ≡ list_any (λ r. crosses_one entry.now (held_in r)) rows.now }
{
    rows.iter().any(|row| is_crossed(row, entry))
}

// Whether a row's ident is the bytes.
fn is_under(row: &Row, ident: &[u8]) -> bool
    ensures { result ≡ bytes_eq ident.now (identOf (held_in row.now)) }
{
    ident == row.entry.ident.text().as_slice()
}

// The place of the row under an ident.
pub(crate) fn place_of(rows: &[Row], ident: &[u8]) -> Option<usize>
    ensures is { result ≡ position (λ r. bytes_eq ident.now (identOf (held_in r))) rows.now }
    ensures within { IfSome result (λ k. k < length rows.now) }
{
    rows.iter().position(|row| is_under(row, ident))
}

// The place of the first row before which the new one comes.
fn place_behind(rows: &[Row], new: &Row) -> Option<usize>
    ensures { result ≡ position (λ r. precedes (held_in new.now) (held_in r)) rows.now }
{
    rows.iter()
        .position(|row| new.entry.ident.comes_before(&row.entry.ident))
}

// The place that a row gets among others: before the first that it precedes.
pub(crate) fn seat_of(rows: &[Row], new: &Row) -> usize
    ensures is { result ≡ position_or_len (λ r. precedes (held_in new.now) (held_in r)) rows.now }
    ensures within { result ≤ length rows.now }
{
    place_behind(rows, new).unwrap_or(rows.len())
}
