// The commands that lines are.
use calls::call::Call;
use forms::kind::FormKind;

// The book that a line names.
#[derive(Drop)]
pub enum BookChoice {
    // the GS1 book
    Gs1,
    // the hall book that the words spell
    Hall(Vec<u32>),
}

// What a line can ask for.
#[derive(Drop)]
pub enum Command {
    // call the card
    Call(Call<Vec<u8>>),
    // judge the bytes as one field of that form
    Field { kind: FormKind, bytes: Vec<u8> },
    // judge the elements of the bytes, which are a scan
    Read(Vec<u8>),
    // look up the ident of those bytes
    Look(Vec<u8>),
    // use that book from here on
    Book(BookChoice),
    // begin a symbol over a buffer of that many bytes
    Begin { room: usize },
    // add the bytes to the open symbol, as one element
    Add(Vec<u8>),
    // seal the open symbol
    Seal,
}
