//! Words of a table.
ghost use Rattle.std.specs.Prelude.{◌≡◌, map};
ghost use Rattle.std.specs.List.{list_any};
ghost use Rattle.std.specs.Str.{bytes_eq};

/// Whether a word is one of these.
pub(crate) fn is_among(words: &[&str], word: &str) -> bool
    ensures { result ≡ list_any (bytes_eq word.now) (map (λ w. w.now) words.now) }
{
    for entry in words {
        if word == *entry {
            return true;
        }
    }
    false
}
