// The rows of each symbol.
ghost use Rattle.std.specs.Prelude.{◌≡◌, ◌<◌, ◌≤◌, ◌∷◌, map, length, take, drop};
ghost use Rattle.std.specs.Option.{option_map};
ghost use Rattle.std.specs.List.{slice_get};
ghost use Rattle.std.specs.Iterator.{YieldsFirstBy, item_count};
ghost use Rattle.cards.specs.Rows.{held_in};
ghost use Rattle.cards.specs.Strings.{spelled, runs};

use crate::row::Row;
use crate::strings::piece_length;

// As many bytes of data as a symbol may have.
const MOST: usize = 48;

// How many of the rows the first symbol has: each joins it, while its data then has at most 48 bytes.
fn run_length(rows: &[Row]) -> usize
    requires { 0 < length rows.now }
    ensures some { 0 < result }
    ensures within { result ≤ length rows.now }
    ensures short { length (spelled (map held_in (take result rows.now))) ≤ 48 }
    ensures cut { runs (map held_in rows.now) ≡ map held_in (take result rows.now) ∷ runs (map held_in (drop result rows.now)) }
{
    let mut bytes = 0;
    let mut separator = 0;
    // Kept: a `for` with an index, since what is looked for is where a running sum passes a bound.
    for (i, row) in rows.iter().enumerate() {
        let with = bytes + separator + piece_length(row);
        if with > MOST {
            return i;
        }
        bytes = with;
        separator = usize::from(!row.entry.ident.predefined());
    }
    rows.len()
}

// The rows of each symbol of some rows, one symbol after the other.
#[derive(Drop)]
struct Runs<'a> {
    // what is left
    rest: &'a [Row],
}

impl<'a> Iterator for Runs<'a> {
    type Item = &'a [Row];

    ghost next_gives = { YieldsFirstBy (λ run. map held_in run.now) (λ s. runs (map held_in s.rest.now)) };

    ghost remaining = { item_count (λ s. runs (map held_in s.rest.now)) };

    fn next(&mut self) -> Option<&'a [Row]> {
        if self.rest.is_empty() {
            return None;
        }
        let (run, rest) = self.rest.split_at(run_length(self.rest));
        self.rest = rest;
        Some(run)
    }
}

// How many symbols some rows make.
pub(crate) fn count_runs(rows: &[Row]) -> usize
    requires { length rows.now ≤ 32 }
    ensures { result ≡ length (runs (map held_in rows.now)) }
{
    Runs { rest: rows }.count()
}

// The rows of the symbol of the number `k`, from 0 on.
pub(crate) fn nth_run(rows: &[Row], k: usize) -> Option<&[Row]>
    ensures { option_map (λ run. map held_in run.now) result ≡ slice_get (runs (map held_in rows.now)) k }
{
    Runs { rest: rows }.nth(k)
}
