// The book of a hall, spelled by words.
ghost use Rattle.std.specs.Prelude.{◌≡◌, ◌≤◌, T, [], length, Some, None, MatchResult};
ghost use Rattle.books.specs.Entries.{listed, found};
ghost use Rattle.books.specs.Words.{word_entry, is_book};
ghost use Rattle.books.specs.Sound.{all_lawful_lem, book_free};
ghost use Rattle.books.specs.Loads.{first_fault};

use crate::book::Book;
use crate::entry::Entry;
use crate::fault::BookFault;
use crate::load::judge_all;
use crate::spelled::look;

// Words that are a book: at most 64 lawful entries, of which no ident equals or begins another.
#[derive(Clone, Copy)]
pub struct HallBook<'a> {
    words: &'a [u32],
    ghost few: { length words.now ≤ 64 },
    ghost each: { length words.now ≡ length (listed word_entry words.now) },
    ghost ok: { T (is_book words.now) },
}

impl<'a> HallBook<'a> {
    // The book of no entries.
    pub fn empty() -> HallBook<'a>
        ensures { result.words.now ≡ [] }
    {
        HallBook { words: &[] }
    }

    // How many entries it has.
    pub fn count(&self) -> usize
        ensures entries { result ≡ length (listed word_entry self.now.words.now) }
        ensures bound { result ≤ 64 }
    {
        self.words.len()
    }

    // Holds the entries of the words from now on, if they are a book; else tells their first fault, and holds what it held.
    pub fn load(&mut self, words: &'a [u32]) -> Result<(), BookFault>
        ensures fault { MatchResult result (λ _. first_fault words.now ≡ None) (λ f. first_fault words.now ≡ Some f) }
        ensures book { MatchResult result (λ _. T (is_book words.now)) (λ _. T (is_book words.now) → ⊥) }
        ensures held { MatchResult result (λ _. self.new.words ≡ words.entry) (λ _. self.new ≡ self.old) }
    {
        judge_all(words)?;
        self.words = words;
        Ok(())
    }
}

// The first of the entries that the words spell whose ident the bytes begin with. Words that are a book have at most one.
pub fn find_word(words: &[u32], shown: &[u8]) -> Option<Entry>
    ensures { result ≡ found (listed word_entry words.now) shown.now }
{
    look(words, shown)
}

impl<'a> Book for HallBook<'a> {
    ghost entries = { λ b. listed word_entry b.words.now };

    ghost lawful = { λ b. all_lawful_lem (listed word_entry b.words.now) };

    ghost apart = { λ b. book_free b.words.now b.ok };

    fn find(&self, shown: &[u8]) -> Option<Entry> {
        look(self.words, shown)
    }
}
