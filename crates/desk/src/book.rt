// Words that are a hall's book.
ghost use Rattle.std.specs.Prelude.{◌≡◌, T, Some, MatchResult};
ghost use Rattle.books.specs.Loads.{first_fault};
ghost use Rattle.books.specs.Words.{is_book};

use books::fault::BookFault;
use books::hall::HallBook;

// Words that are a hall's book, to be kept.
#[derive(Drop)]
pub struct HallWords {
    pub(crate) words: Vec<u32>,
    ghost ok: { T (is_book words.items) },
}

impl HallWords {
    // Keeps the words, if they are a book; else tells their first fault.
    pub fn new(words: Vec<u32>) -> Result<HallWords, BookFault>
        ensures { MatchResult result (λ hall. hall.words ≡ words) (λ f. first_fault words.items ≡ Some f) }
    {
        HallBook::empty().load(words.as_slice())?;
        Ok(HallWords { words })
    }

    // The book that the words are.
    pub fn book(&self) -> HallBook<'_>
        ensures { result.words.now ≡ self.now.words.items }
    {
        let mut book = HallBook::empty();
        book.load(self.words.as_slice()).unwrap();
        book
    }
}
