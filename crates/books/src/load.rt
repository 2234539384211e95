// Words judged one by one.
ghost use Rattle.std.specs.Prelude.{◌≡◌, T, None, MatchResult};
ghost use Rattle.books.specs.Entries.{ident_text, apart_from_all, listed};
ghost use Rattle.books.specs.Words.{word_entry, is_book, Sound};
ghost use Rattle.books.specs.Loads.{word_fault, first_fault};

use crate::fault::BookFault;
use crate::ident::Ident;
use crate::spelled::Spelled;

// Whether the ident neither equals, begins nor is begun by the ident of any of the words.
fn apart_from_all(ident: &Ident, words: &[u32]) -> bool
    ensures { result ≡ apart_from_all (ident_text ident.now) (listed word_entry words.now) }
{
    words
        .iter()
        .filter_map(|word| word.read())
        .all(|entry| !ident.overlaps(&entry.ident))
}

// What is wrong with a word behind the earlier words: first whether it is a lawful entry and not the 65th.
fn judge(earlier: &[u32], word: u32) -> Result<(), BookFault>
    ensures { MatchResult result (λ _. word_fault earlier.now word ≡ None) (λ f. word_fault earlier.now word ≡ Some f) }
{
    let place = earlier.len();
    let entry = word.read().ok_or(BookFault::Unlawful { place })?;
    if place >= 64 {
        return Err(BookFault::Unlawful { place });
    }
    if !apart_from_all(&entry.ident, earlier) {
        return Err(BookFault::Overlap { place });
    }
    Ok(())
}

// The first fault of the words, each judged behind those before it; words with none are a book.
pub(crate) fn judge_all(words: &[u32]) -> Result<(), BookFault>
    ensures fault { MatchResult result (λ _. first_fault words.now ≡ None) (λ f. first_fault words.now ≡ Some f) }
    ensures book { MatchResult result (λ _. Sound words.now) (λ _. T (is_book words.now) → ⊥) }
{
    // Kept: an index, since each word is judged against those before it; the project fixes this form for a load.
    for (i, word) in words.iter().enumerate() {
        judge(&words[..i], *word)?;
    }
    Ok(())
}
