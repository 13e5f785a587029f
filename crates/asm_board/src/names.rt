//! Which words are names.
ghost use Rattle.std.specs.Prelude.{◌≡◌, ◌||◌};
ghost use Rattle.std.specs.List.{list_all};
ghost use Rattle.asm_board.specs.Changes as spec;

fn is_letter(byte: u8) -> bool
    ensures { result ≡ spec.is_letter byte }
{
    byte.is_ascii_alphabetic() || byte == b'_'
}

fn are_letters_or_digits(bytes: &[u8]) -> bool
    ensures { result ≡ list_all (λ d. spec.is_letter d || spec.is_digit d) bytes.now }
{
    for byte in bytes {
        if !is_letter(*byte) && !byte.is_ascii_digit() {
            return false;
        }
    }
    true
}

/// Whether a word is a letter or `_`, and then letters, digits and `_`. Takes no memory.
pub fn is_identifier(word: &str) -> bool
    ensures { result ≡ spec.is_identifier word.now }
{
    match word.as_bytes() {
        [first, rest @ ..] => is_letter(*first) && are_letters_or_digits(rest),
        [] => false,
    }
}
