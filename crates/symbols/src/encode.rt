// The values of an element, and check values.
ghost use Rattle.std.specs.Prelude.{◌≡◌, ◌+◌, ◌-◌, ◌*◌, ◌%◌, ◌^◌, ◌<◌, ◌≤◌, true, [], ◌++◌, length, MatchOption};
ghost use Rattle.std.specs.List.{prefix_len};
ghost use Rattle.buffers.specs.Shown.{shown};
ghost use Rattle.forms.specs.Bytes.{digit, allowed};
ghost use Rattle.symbols.specs.Reading.{weighted};
ghost use Rattle.symbols.specs.Encoding.{pair_of, ahead, Steps, values, set_after};

use crate::code::{CodeSet, TO_B, TO_C};
use buffers::buffer::Buffer;
use forms::bytes::{DigitByte, passed};

// Whether so many digits stand ahead.
fn digits_ahead(bytes: &[u8], least: usize) -> bool
    ensures { result ≡ ahead least bytes.now }
{
    passed::<DigitByte>(bytes) >= least
}

// The number that two digits write.
// Kept: beside `pair` of the digits of a field, which are digits by their type; these two are by the pattern that found them.
pub(crate) fn pair_value(tens: u8, units: u8) -> u8
    requires tens { digit tens ≡ true }
    requires units { digit units ≡ true }
    ensures { result ≡ pair_of tens units }
{
    10 * (tens - b'0') + (units - b'0')
}

// One value of an element: the set that it leaves, and the bytes that are still to be written.
#[derive(Clone, Copy)]
struct Coded<'a> {
    value: u8,
    set: CodeSet,
    rest: &'a [u8],
}

// The first of the values that stand for bytes in a set, if there are bytes.
fn code<'a>(set: CodeSet, bytes: &'a [u8]) -> Option<Coded<'a>>
    requires { prefix_len allowed bytes.now ≡ length bytes.now }
    ensures steps { MatchOption result (bytes.now ≡ []) (λ c. Steps set bytes.now c.value c.set c.rest.now) }
    ensures text { MatchOption result (bytes.now ≡ []) (λ c. prefix_len allowed c.rest.now ≡ length c.rest.now) }
{
    let [first, after @ ..] = bytes else {
        return None;
    };
    match set {
        CodeSet::C => match after {
            [second, rest @ ..] if digits_ahead(bytes, 2) => Some(Coded {
                value: pair_value(*first, *second),
                set,
                rest,
            }),
            _ => Some(Coded {
                value: TO_B,
                set: CodeSet::B,
                rest: bytes,
            }),
        },
        CodeSet::B if digits_ahead(bytes, 4) => Some(Coded {
            value: TO_C,
            set: CodeSet::C,
            rest: bytes,
        }),
        CodeSet::B => Some(Coded {
            value: *first - 32,
            set,
            rest: after,
        }),
    }
}

// Puts the values of `element` behind those that `out` has; answers the set that they end in.
pub(crate) fn encode(start: CodeSet, element: &[u8], out: &mut Buffer<97>) -> CodeSet
    requires room { length (shown out.old) ≤ 1 }
    requires short { length element.now ≤ 48 }
    requires text { prefix_len allowed element.now ≡ length element.now }
    ensures wrote { shown out.new ≡ shown out.old ++ values start element.now }
    ensures goes { result ≡ set_after start element.now }
{
    let mut set = start;
    let mut rest = element;
    while let Some(coded) = code(set, rest) {
        // there is room for two values for each byte
        out.push(&[coded.value]).unwrap();
        set = coded.set;
        rest = coded.rest;
    }
    set
}

// A sum with one value more, at its place, reduced by 103.
fn weighed(sum: usize, place: usize, value: u8) -> usize
    requires { sum < 103 }
    ensures { result ≡ (sum + place % 103 * value) % 103 }
{
    (sum + place % 103 * usize::from(value)) % 103
}

// The check value of a symbol whose values before `place` have the sum `sum`, with `more` from `place` on.
pub(crate) fn check_on(sum: u8, place: usize, more: &[u8]) -> u8
    requires { place + length more.now < 2 ^ 64 }
    ensures is { result ≡ (sum + weighted place more.now) % 103 }
    ensures small { result < 103 }
{
    let mut s = usize::from(sum) % 103;
    for (j, v) in more.iter().enumerate() {
        s = weighed(s, place + j, *v);
    }
    s as u8
}
