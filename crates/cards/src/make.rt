// A new card, and an emptied one.
ghost use Rattle.std.specs.Prelude.{◌≡◌, []};
ghost use Rattle.cards.specs.Tallies.{blank};
ghost use Rattle.cards.specs.Cards.{tally};

use crate::card::Card;
use crate::row::Row;
use books::entry::Entry;
use books::ident::Ident;
use forms::kind::FormKind;
use forms::value::Value;
use forms::year::Year;

// A row that holds nothing of use.
const UNUSED: Row = Row {
    entry: Entry {
        ident: Ident {
            digits: 2,
            number: 0,
        },
        form: FormKind::Key,
        shortest: 18,
        longest: 18,
    },
    value: Value::Text { len: 18 },
    text: [b'0'; 30],
    len: 18,
};

impl Card {
    // An empty card, in the first year.
    pub fn make() -> Card
        ensures { tally result ≡ blank 2000 }
    {
        Card {
            year: Year::FIRST,
            len: 0,
            rows: [UNUSED; 32],
        }
    }

    // Empties the card, and keeps its year.
    pub fn wipe(&mut self)
        ensures { tally self.new ≡ blank self.old.year.number }
    {
        self.len = 0;
    }
}
