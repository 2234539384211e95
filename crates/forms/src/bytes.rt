// Classes of bytes, and bytes put into a buffer.
ghost use Rattle.std.specs.Prelude.{◌≡◌, ℕ, ◌≤◌, Bool, ◌++◌, length, drop};
ghost use Rattle.std.specs.List.{prefix_len};
ghost use Rattle.forms.specs.Bytes.{allowed, digit};

// A class of bytes, told by a test.
pub trait ByteClass {
    ghost holds: { ℕ → Bool };

    // Whether the byte is in the class.
    fn has(b: u8) -> bool
        ensures { result ≡ holds b };
}

// The bytes that a text may hold.
pub struct TextByte;

impl ByteClass for TextByte {
    ghost holds = { allowed };

    fn has(b: u8) -> bool {
        matches!(b, 33..=34 | 37..=63 | 65..=90 | 95 | 97..=122)
    }
}

// The digits.
pub struct DigitByte;

impl ByteClass for DigitByte {
    ghost holds = { digit };

    fn has(b: u8) -> bool {
        b.is_ascii_digit()
    }
}

// How many bytes of `field` stand before the first that is not of the class.
pub fn passed<C: ByteClass>(field: &[u8]) -> usize
    ensures { result ≡ prefix_len C.ByteClass.holds field.now }
{
    field.iter().take_while(|b| C::has(**b)).count()
}

// Writes `from` over the first bytes of `out`.
pub(crate) fn put(out: &mut [u8], from: &[u8])
    requires { length from.now ≤ length out.old }
    ensures { out.new ≡ from.now ++ drop (length from.now) out.old }
{
    out[..from.len()].copy_from_slice(from);
}
