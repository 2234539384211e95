// What came, as text.
use cards::card::Card;
use commands::show::show;
use desk::told::Told;
use desk::writing::string_of;
use forms::judge::Reading;
use std::alloc::Global;
use std::io;
use std::io::Write;

// Adds the writing of a value, and the value.
pub fn write_reading(reading: &Reading, writing: &[u8; 30], came: &mut Vec<u8>) -> io::Result<()> {
    show(&writing[0..reading.len.min(30)], came)?;
    let told = Told(&reading.value);
    write!(came, " {told}")
}

// Adds the values of a symbol, a space between two.
pub fn write_values(values: &[u8], came: &mut Vec<u8>) -> io::Result<()> {
    // Kept: an index, since a space stands between two values and before none.
    for (i, value) in values.iter().enumerate() {
        if i > 0 {
            write!(came, " ")?;
        }
        write!(came, "{value}")?;
    }
    Ok(())
}

// Adds the canonical string of a card.
pub fn write_string(heap: Global, card: &Card, came: &mut Vec<u8>) -> io::Result<()> {
    let string = string_of(heap, card)?;
    show(string.as_slice(), came)?;
    Ok(())
}
