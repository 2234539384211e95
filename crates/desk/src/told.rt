// Values, as they are told.
ghost use Rattle.std.specs.Prelude.{Some};
ghost use Rattle.desk.specs.Values.{value_text};

use forms::value::Value;
use std::fmt;

// Tells the kind of a value, and what it is where its writing does not tell.
#[derive(Clone, Copy)]
pub struct Told<'a>(pub &'a Value);

impl fmt::Display for Told<'_> {
    ghost output = { λ told. Some (value_text told.0.now) };

    fn fmt<W: fmt::Write>(&self, f: &mut fmt::Formatter<W>) -> fmt::Result {
        match self.0 {
            Value::Text { .. } => f.write_str("text"),
            Value::Key(_) => f.write_str("key"),
            Value::Date(date) => write!(f, "date {date}"),
            Value::Stamp(stamp) => write!(f, "stamp {stamp}"),
            Value::Fraction(n) => write!(f, "fraction {n}"),
            Value::Whole(n) => write!(f, "whole {n}"),
        }
    }
}
