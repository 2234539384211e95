// Why a line is no command.
ghost use Rattle.std.specs.Prelude.{◌≡◌, Some};
ghost use Rattle.commands.specs.Complaints.{complaint_text};

use std::fmt;

// Why a line is no command.
#[derive(Clone, Copy, Debug, PartialEq, Eq)]
pub enum Complaint {
    // no command has this word, or no form this name
    UnknownCommand,
    // a backslash without two hexadecimal digits behind it
    BadEscape,
    // not the numbers that the command takes
    BadNumber,
    // there is no open symbol to add to or to seal
    NoOpenSymbol,
    // a book is named after the first call
    TooLate,
}

impl Complaint {
    // What is answered to such a line.
    pub fn text(self) -> &'static str
        ensures { result.now ≡ complaint_text self }
    {
        match self {
            Complaint::UnknownCommand => "? unknown command",
            Complaint::BadEscape => "? bad escape",
            Complaint::BadNumber => "? bad number",
            Complaint::NoOpenSymbol => "? no open symbol",
            Complaint::TooLate => "? too late",
        }
    }
}

// Writes the text.
impl fmt::Display for Complaint {
    ghost output = { λ c. Some (complaint_text c) };

    fn fmt<W: fmt::Write>(&self, f: &mut fmt::Formatter<W>) -> fmt::Result {
        f.write_str(self.text())
    }
}
