// A call on a card.

// A call on a card, with what it is handed. Its bytes are a `B`: a slice where they are lent, a `Vec` where they are kept.
#[derive(Clone, Copy, Drop)]
pub enum Call<B> {
    // puts the elements of a scan on the card; the scan's bytes
    Scan(B),
    // puts the elements of a symbol's data on the card; the symbol's values
    Take(B),
    // strikes the element under an ident; the ident's digits
    Strike(B),
    // empties the card
    Wipe,
    // sets the year
    Turn(u16),
}
