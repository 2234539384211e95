// The lengths that the first two digits of an ident predefine.
ghost use Rattle.std.specs.Prelude.{◌≡◌};
ghost use Rattle.books.specs.Texts.{whole};

// The length of ident and field together that two first digits predefine.
pub fn predefined_length(first_two: u8) -> Option<u8>
    ensures { result ≡ whole first_two }
{
    match first_two {
        0 => Some(20),
        1..=3 | 41 => Some(16),
        4 => Some(18),
        11..=19 => Some(8),
        20 => Some(4),
        31..=36 => Some(10),
        _ => None,
    }
}
