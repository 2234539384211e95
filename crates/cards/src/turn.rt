// The year of a card.
ghost use Rattle.std.specs.Prelude.{◌≡◌, position};
ghost use Rattle.cards.specs.Rows.{held_in};
ghost use Rattle.cards.specs.Cards.{tally};
ghost use Rattle.cards.specs.Tallies.{near as nearTo, outside};
ghost use Rattle.cards.specs.Outcomes.{turn_outcome};
ghost use Rattle.cards.specs.Answers.{Turns};

use crate::card::Card;
use crate::fault::CardFault;
use crate::row::Row;
use forms::value::Value;
use forms::year::Year;

// Whether a row has a date or stamp outside the span of a year: from 49 before to 50 after it.
fn is_outside(row: &Row, year: Year) -> bool
    ensures { result ≡ outside year.number (held_in row.now).value }
{
    match row.value {
        Value::Date(date) => !near(year, date.year),
        Value::Stamp(stamp) => !near(year, stamp.date.year),
        _ => false,
    }
}

// Whether a year lies within the span of a card's year.
fn near(card: Year, year: u16) -> bool
    ensures { result ≡ nearTo card.number year }
{
    let card = card.number();
    (card - 49..=card + 50).contains(&year)
}

// The number of the first row with a date outside the span of a year.
fn first_outside(rows: &[Row], year: Year) -> Option<usize>
    ensures { result ≡ position (λ r. outside year.number (held_in r).value) rows.now }
{
    rows.iter().position(|row| is_outside(row, year))
}

impl Card {
    // Sets the year and leaves every value; or refuses, and the card is as it was.
    pub fn turn(&mut self, number: u16) -> Result<(), CardFault>
        ensures { Turns (turn_outcome (tally self.old) number) self.old self.new result }
    {
        let Some(year) = Year::new(number) else {
            return Err(CardFault::NoSuchYear);
        };
        if let Some(element) = first_outside(self.held(), year) {
            return Err(CardFault::Outside { element });
        }
        self.year = year;
        Ok(())
    }
}
