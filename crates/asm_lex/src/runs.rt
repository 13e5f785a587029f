//! Runs of bytes at an offset.
ghost use Rattle.std.specs.Prelude.{IsTrue, ◌≡◌, ℕ, ◌+◌, ◌<◌, ◌≤◌, ◌∷◌, [], length, drop, slice_index, IfSome};
ghost use Rattle.std.specs.List.{prefix_len};
ghost use Rattle.asm_syntax.specs.Bytes.{is_letter, is_digit, is_blank, starts_with, value_of};
ghost use Rattle.asm_lex_theory.specs.Scan.{block_len, is_mark};
ghost use Rattle.asm_lex.specs.Runs.{test_of, IsDecimal};

/// The bytes that a run has.
#[derive(Clone, Copy)]
pub(crate) enum Class {
    /// Letters, digits and `_`.
    Word,
    Digit,
    /// What is allowed between the quotes of a string.
    Chars,
    /// All but a line feed.
    Line,
}

/// An ASCII letter or `_`.
pub(crate) fn is_letter(byte: u8) -> bool
    ensures { result ≡ is_letter byte }
{
    matches!(byte, b'a'..=b'z' | b'A'..=b'Z' | b'_')
}

pub(crate) fn is_digit(byte: u8) -> bool
    ensures { result ≡ is_digit byte }
{
    matches!(byte, b'0'..=b'9')
}

pub(crate) fn is_blank(byte: u8) -> bool
    ensures { result ≡ is_blank byte }
{
    matches!(byte, b' ' | b'\t' | b'\r' | b'\n')
}

fn passes(class: Class, byte: u8) -> bool
    ensures { result ≡ test_of class byte }
{
    match class {
        Class::Word => is_letter(byte) || is_digit(byte),
        Class::Digit => is_digit(byte),
        Class::Chars => byte >= b' ' && byte != b'"',
        Class::Line => byte != b'\n',
    }
}

/// How many bytes of the class follow one another from an offset on.
pub(crate) fn run(bytes: &[u8], class: Class, from: usize) -> usize
    requires { from ≤ length bytes.now }
    ensures len { result ≡ prefix_len (test_of class) (drop from bytes.now) }
    ensures within { from + result ≤ length bytes.now }
{
    let mut end = from;
    while end < bytes.len() {
        if !passes(class, bytes[end]) {
            return end - from;
        }
        end += 1;
    }
    end - from
}

/// Whether these two bytes are at an offset.
pub(crate) fn begins(bytes: &[u8], at: usize, first: u8, second: u8) -> bool
    requires { at < length bytes.now }
    ensures value { result ≡ starts_with (first ∷ second ∷ []) (slice_index bytes.now at ∷ drop (at + 1) bytes.now) }
    ensures room { IsTrue result → at + 2 ≤ length bytes.now }
{
    first == bytes[at] && at + 1 < bytes.len() && second == bytes[at + 1]
}

/// How many bytes there are from an offset to the end of the first `*/` after it.
pub(crate) fn block(bytes: &[u8], from: usize) -> Option<usize>
    requires { from ≤ length bytes.now }
    ensures value { result ≡ block_len (drop from bytes.now) }
    ensures within { IfSome result (λ len. from + len ≤ length bytes.now) }
{
    let mut at = from;
    while at < bytes.len() {
        if begins(bytes, at, b'*', b'/') {
            return Some(at - from + 2);
        }
        at += 1;
    }
    None
}

/// The number that digits spell, where it is at most 2^127 - 1.
pub(crate) fn decimal(digits: &[u8]) -> Option<i128>
    ensures { IsDecimal (value_of digits.now) result }
{
    let mut value: u128 = 0;
    for digit in digits {
        let next = digit.saturating_sub(b'0');
        if value > (i128::MAX as u128 - next as u128) / 10 {
            return None;
        }
        value = 10 * value + next as u128;
    }
    Some(value as i128)
}

/// Whether the `n` at an offset belongs to the digits before it.
pub(crate) fn marked(bytes: &[u8], at: usize) -> bool
    requires { at ≤ length bytes.now }
    ensures { result ≡ is_mark (drop at bytes.now) }
{
    if at == bytes.len() || bytes[at] != b'n' {
        return false;
    }
    at + 1 == bytes.len() || !passes(Class::Word, bytes[at + 1])
}
