// The symbols of a card.
ghost use Rattle.std.specs.Prelude.{◌≡◌, ◌<◌, ◌≤◌, true, ◌⊎◌, ◌∷◌, map, length, take, drop};
ghost use Rattle.cards.specs.Rows.{held_in};
ghost use Rattle.cards.specs.Cards.{tally};
ghost use Rattle.cards.specs.Regular.{all_fit};
ghost use Rattle.cards.specs.Strings.{spelled, runs, symbol_of, symbols, Prints};

use crate::card::Card;
use crate::fault::PrintFault;
use crate::row::Row;
use crate::runs::{count_runs, nth_run};
use crate::strings::{piece, write_over};
use symbols::writer::{add, begin, seal};

// As many values as a symbol can have: two for its start, two for each byte of data, its check value and the stop.
const LONGEST: usize = 100;

// Writes the symbol of rows over the first values of `symbol`, and says how many it has.
// Kept: a lent array and a length, since begin, add and seal are each passed the memory that a symbol stands in.
fn write_symbol(rows: &[Row], symbol: &mut [u8; LONGEST]) -> usize
    requires short { length (spelled (map held_in rows.now)) ≤ 48 }
    requires fit { all_fit (map held_in rows.now) ≡ true }
    ensures within { result ≤ 100 }
    ensures wrote { take result symbol.new ≡ symbol_of (map held_in rows.now) }
{
    let mut open = begin(symbol).unwrap();
    for row in rows {
        open = add(open, symbol, piece(row).as_slice()).unwrap();
    }
    seal(open, symbol).unwrap()
}

impl Card {
    // How many symbols the card has.
    pub fn symbols(&self) -> usize
        ensures { result ≡ length (symbols (tally self.now)) }
    {
        count_runs(self.held())
    }

    // Writes the symbol of the number `k`, from 0 on, over the first bytes of `out`, and says how many values it has;
    // or refuses where there is none of that number, or `out` is too short, and `out` stays.
    pub fn print(&self, k: usize, out: &mut [u8]) -> Result<usize, PrintFault>
        ensures { Prints k (symbols (tally self.now)) out.old out.new result }
    {
        let Some(run) = nth_run(self.held(), k) else {
            return Err(PrintFault::NoSymbol {
                count: self.symbols(),
            });
        };
        let mut symbol = [0; LONGEST];
        let n = write_symbol(run, &mut symbol);
        Ok(write_over(&symbol[0..n], out)?)
    }
}
