// Entries that are kept in another shape, and read when they are looked for.
ghost use Rattle.std.specs.Prelude.{◌≡◌, Option};
ghost use Rattle.books.specs.declared.entry.Entry.{Entry as TheEntry};
ghost use Rattle.books.specs.Entries.{found, listed};

use crate::entry::Entry;

// What spells an entry, if it spells a lawful one.
pub(crate) trait Spelled {
    ghost spells: { Self → Option TheEntry };

    // The entry that is spelled, if it is lawful.
    fn read(&self) -> Option<Entry>
        ensures { result ≡ spells self.now };
}

// The first of the entries whose ident the bytes begin with.
pub(crate) fn look<S: Spelled>(items: &[S], shown: &[u8]) -> Option<Entry>
    ensures { result ≡ found (listed S.Spelled.spells items.now) shown.now }
{
    items
        .iter()
        .filter_map(|item| item.read())
        .find(|entry| entry.ident.begins(shown))
}
