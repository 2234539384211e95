// Lines as they are read.
ghost use Rattle.std.specs.Prelude.{◌≡◌};
ghost use Rattle.desk.specs.Ends.{without_end};

use commands::cut::trimmed;

// A line without the bytes that end it: byte 10, and a byte 13 just before that. A line that lacks its byte 10 is whole.
pub fn without_end(line: &[u8]) -> &[u8]
    ensures { result.now ≡ without_end line.now }
{
    match line {
        [front @ .., b'\n'] => trimmed(front),
        _ => line,
    }
}
