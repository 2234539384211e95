// What a book answers.
ghost use Rattle.std.specs.Prelude.{◌≡◌, T, List};
ghost use Rattle.books.specs.declared.entry.Entry.{Entry};
ghost use Rattle.books.specs.Entries.{all_lawful, prefix_free, found};

use crate::entry::Entry;

// A book means a list of lawful entries, of which no ident equals or begins another.
pub trait Book {
    ghost entries: { Self → List Entry };

    ghost lawful: { (b : Self) → T (all_lawful (entries b)) };

    ghost apart: { (b : Self) → T (prefix_free (entries b)) };

    // The entry whose ident the bytes begin with.
    fn find(&self, shown: &[u8]) -> Option<Entry>
        ensures { result ≡ found (entries self.now) shown.now };
}
