// The book in use.
ghost use Rattle.desk.specs.InUse.{entries_in_use, lawful_in_use, apart_in_use};

use crate::book::HallWords;
use books::book::Book;
use books::entry::Entry;
use books::gs1::Gs1Book;
use books::hall::find_word;

// The book in use.
#[derive(Drop)]
pub enum BookInUse {
    // the GS1 book
    Gs1,
    // a hall's book
    Hall(HallWords),
}

impl Book for BookInUse {
    ghost entries = { entries_in_use };

    ghost lawful = { lawful_in_use };

    ghost apart = { apart_in_use };

    fn find(&self, shown: &[u8]) -> Option<Entry> {
        match self {
            BookInUse::Gs1 => Gs1Book.find(shown),
            BookInUse::Hall(hall) => find_word(hall.words.as_slice(), shown),
        }
    }
}
