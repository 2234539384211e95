// Names in a line.
ghost use Rattle.std.specs.Prelude.{◌≡◌, ℕ, List};
ghost use Rattle.std.specs.Str.{bytes_eq};
ghost use Rattle.commands.specs.Names.{first_named, form_name, form_kinds, book_name, book_names, call_name, call_words, command_name, command_words, hall_word_name, hall_words};

use crate::hall::Hall;
use forms::kind::FormKind;

// What has a name in a line.
pub(crate) trait Named: Copy + 'static {
    // The name of each.
    ghost named: { Self → List ℕ };

    // All of them.
    ghost all: { List Self };

    // The name.
    fn name(self) -> &'static str
        ensures { result.now ≡ named self };

    // All of them.
    fn all() -> &'static [Self]
        ensures { result.now ≡ all };
}

// Whether it has the name.
fn has_name<T: Named>(x: T, name: &[u8]) -> bool
    ensures { result ≡ bytes_eq (T.Named.named x) name.now }
{
    x.name().as_bytes() == name
}

// The one that has the name.
pub(crate) fn find<T: Named>(name: &[u8]) -> Option<T>
    ensures { result ≡ first_named T.Named.named T.Named.all name.now }
{
    T::all().iter().copied().find(|x| has_name(*x, name))
}

// The names of the forms.
impl Named for FormKind {
    ghost named = { form_name };

    ghost all = { form_kinds };

    fn name(self) -> &'static str {
        match self {
            FormKind::Text => "text",
            FormKind::Digits => "digits",
            FormKind::Key => "key",
            FormKind::Date => "date",
            FormKind::Stamp => "stamp",
            FormKind::Measure => "measure",
            FormKind::Count => "count",
        }
    }

    fn all() -> &'static [FormKind] {
        &FormKind::ALL
    }
}

// The books that there are.
#[derive(Clone, Copy, Debug, PartialEq, Eq)]
pub(crate) enum BookName {
    Gs1,
    Hall,
}

// The names of the books.
impl Named for BookName {
    ghost named = { book_name };

    ghost all = { book_names };

    fn name(self) -> &'static str {
        match self {
            BookName::Gs1 => "gs1",
            BookName::Hall => "hall",
        }
    }

    fn all() -> &'static [BookName] {
        &[BookName::Gs1, BookName::Hall]
    }
}

// The words that calls of a card begin with.
#[derive(Clone, Copy, Debug, PartialEq, Eq)]
pub(crate) enum CallWord {
    Turn,
    Scan,
    Take,
    Strike,
    Wipe,
}

impl Named for CallWord {
    ghost named = { call_name };

    ghost all = { call_words };

    fn name(self) -> &'static str {
        match self {
            CallWord::Turn => "turn",
            CallWord::Scan => "scan",
            CallWord::Take => "take",
            CallWord::Strike => "strike",
            CallWord::Wipe => "wipe",
        }
    }

    fn all() -> &'static [CallWord] {
        &[
            CallWord::Turn,
            CallWord::Scan,
            CallWord::Take,
            CallWord::Strike,
            CallWord::Wipe,
        ]
    }
}

// The words that commands begin with.
#[derive(Clone, Copy, Debug, PartialEq, Eq)]
pub(crate) enum CommandWord {
    Call(CallWord),
    Field,
    Read,
    Look,
    Book,
    Begin,
    Add,
    Seal,
}

impl Named for CommandWord {
    ghost named = { command_name };

    ghost all = { command_words };

    fn name(self) -> &'static str {
        match self {
            CommandWord::Call(word) => word.name(),
            CommandWord::Field => "field",
            CommandWord::Read => "read",
            CommandWord::Look => "look",
            CommandWord::Book => "book",
            CommandWord::Begin => "begin",
            CommandWord::Add => "add",
            CommandWord::Seal => "seal",
        }
    }

    fn all() -> &'static [CommandWord] {
        &[
            CommandWord::Call(CallWord::Turn),
            CommandWord::Call(CallWord::Scan),
            CommandWord::Call(CallWord::Take),
            CommandWord::Call(CallWord::Strike),
            CommandWord::Call(CallWord::Wipe),
            CommandWord::Field,
            CommandWord::Read,
            CommandWord::Look,
            CommandWord::Book,
            CommandWord::Begin,
            CommandWord::Add,
            CommandWord::Seal,
        ]
    }
}

// The words that lines for two halls begin with.
#[derive(Clone, Copy, Debug, PartialEq, Eq)]
pub(crate) enum HallWord {
    Hall(Hall),
    Book,
}

impl Named for HallWord {
    ghost named = { hall_word_name };

    ghost all = { hall_words };

    fn name(self) -> &'static str {
        match self {
            HallWord::Hall(hall) => hall.text(),
            HallWord::Book => "book",
        }
    }

    fn all() -> &'static [HallWord] {
        &[
            HallWord::Hall(Hall::First),
            HallWord::Hall(Hall::Second),
            HallWord::Book,
        ]
    }
}
