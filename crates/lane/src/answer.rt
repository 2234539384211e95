// What is answered, as text.
use books::ident::Ident;
use commands::show::show;
use desk::told::Told;
use forms::form::Form;
use forms::judge::Reading;
use forms::key::KeyForm;
use forms::value::Value;
use std::io;
use std::io::Write;

// Adds a value; where it is a text, its bytes are the first of `beside`.
pub fn write_value(value: &Value, beside: &[u8; 30], out: &mut Vec<u8>) -> io::Result<()> {
    let told = Told(value);
    write!(out, "{told}")?;
    match value {
        Value::Text { len } => write_bytes(&beside[0..usize::from(*len).min(30)], out),
        Value::Key(key) => {
            // Kept: an array and a number, since a form writes into memory that is lent to it.
            let mut digits = [0; 30];
            let n = KeyForm::write(key, &mut digits).min(30);
            write_bytes(&digits[0..n], out)
        }
        _ => Ok(()),
    }
}

// Adds a space and the bytes.
fn write_bytes(bytes: &[u8], out: &mut Vec<u8>) -> io::Result<()> {
    write!(out, " ")?;
    show(bytes, out)?;
    Ok(())
}

// Adds what was read: the writing, and the value.
// Kept: a reading and its writing by themselves, since the bytes are lent to the call that answers the reading.
pub fn write_reading(reading: &Reading, writing: &[u8; 30], out: &mut Vec<u8>) -> io::Result<()> {
    show(&writing[0..reading.len.min(30)], out)?;
    write!(out, " ")?;
    write_value(&reading.value, writing, out)
}

// Adds the line of an element: its ident, the writing of its value, which stands in `writing`, and the value.
pub fn write_element(
    ident: &Ident,
    reading: &Reading,
    writing: &[u8; 30],
    out: &mut Vec<u8>,
) -> io::Result<()> {
    show(ident.text().as_slice(), out)?;
    write!(out, " ")?;
    write_reading(reading, writing, out)?;
    writeln!(out)
}

// Adds the values of a symbol.
pub fn write_values(values: &[u8], out: &mut Vec<u8>) -> io::Result<()> {
    write!(out, "ok")?;
    for value in values {
        write!(out, " {value}")?;
    }
    writeln!(out)
}
