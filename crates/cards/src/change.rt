// Changes of what a card holds.
ghost use Rattle.std.specs.Prelude.{◌≡◌, ◌+◌, ◌-◌, ◌<◌, ◌≤◌, true, false, ◌∷◌, ◌++◌, map, length, take, drop, None, Ok, Err, MatchResult};
ghost use Rattle.std.specs.Str.{bytes_eq};
ghost use Rattle.forms.specs.Values.{written};
ghost use Rattle.cards.specs.Rows.{held_in};
ghost use Rattle.cards.specs.Cards.{held_by, tally};
ghost use Rattle.cards.specs.Answers.{Puts, Strikes};
ghost use Rattle.cards.specs.Tallies.{insert, look, crossed, put, ident};
ghost use Rattle.cards.specs.Outcomes.{strike_outcome};
ghost use Rattle.cards.specs.Regular.{stands};

use crate::card::Card;
use crate::fault::CardFault;
use crate::row::Row;
use crate::search::{crosses, place_of, seat_of};
use scans::fault::ScanFault;

// Whether two rows have the same writing.
fn same_writing(a: &Row, b: &Row) -> bool
    ensures { result ≡ bytes_eq (written (held_in a.now).value) (written (held_in b.now).value) }
{
    a.writing() == b.writing()
}

// Puts `new` at a place; what stood there and behind it moves on by one, and the last goes.
fn make_room(rows: &mut [Row], place: usize, new: Row)
    requires { place < length rows.old }
    ensures { rows.new ≡ take place rows.old ++ new ∷ take (length rows.old - 1 - place) (drop place rows.old) }
{
    rows[place..].rotate_right(1);
    rows[place] = new;
}

// Takes out what stands at a place; what stands behind it moves up by one, and it goes to the end.
fn close_up(rows: &mut [Row], place: usize)
    requires { place < length rows.old }
    ensures { rows.new ≡ take place rows.old ++ (drop (place + 1) rows.old ++ take 1 (drop place rows.old)) }
{
    rows[place..].rotate_left(1);
}

impl Card {
    // Puts a row in at its seat, among fewer than 32 that it neither crosses nor equals.
    fn insert(&mut self, new: Row)
        requires room { self.old.len < 32 }
        requires free { crossed new.entry (held_by self.old) ≡ false }
        requires absent { look (ident (held_in new)) (held_by self.old) ≡ None }
        requires lawful { stands self.old.year.number (held_in new) ≡ true }
        ensures year { self.new.year ≡ self.old.year }
        ensures held { held_by self.new ≡ insert (held_in new) (held_by self.old) }
    {
        let place = seat_of(self.held(), &new);
        let Card { len, rows, .. } = self;
        make_room(rows, place, new);
        *len += 1;
    }

    // Puts a row on the card whose ident stands at the place `at` of a scan, and says how many idents came to be held: 0 or 1.
    // Where it is refused, the card is as it was.
    pub(crate) fn put(&mut self, new: Row, at: usize) -> Result<usize, ScanFault>
        requires { stands self.old.year.number (held_in new) ≡ true }
        ensures year { self.new.year ≡ self.old.year }
        ensures is { Puts (put at (held_by self.old) (held_in new)) self.old self.new result }
    {
        if crosses(self.held(), &new.entry) {
            return Err(ScanFault::Clash { place: at });
        }
        let ident = new.entry.ident.text();
        match place_of(self.held(), ident.as_slice()) {
            Some(place) => {
                if same_writing(&new, &self.rows[place]) {
                    Ok(0)
                } else {
                    Err(ScanFault::Differs { place: at })
                }
            }
            None => {
                if self.len >= 32 {
                    return Err(ScanFault::Full { place: at });
                }
                self.insert(new);
                Ok(1)
            }
        }
    }

    // Strikes the element under an ident, or refuses, and the card is as it was.
    pub fn strike(&mut self, ident: &[u8]) -> Result<(), CardFault>
        ensures { Strikes (strike_outcome (tally self.old) ident.now) self.old self.new result }
    {
        let Some(place) = place_of(self.held(), ident) else {
            return Err(CardFault::NotHeld);
        };
        let Card { len, rows, .. } = self;
        close_up(rows, place);
        *len -= 1;
        Ok(())
    }
}
