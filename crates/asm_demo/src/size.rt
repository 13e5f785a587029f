//! The size of a demo, as it is written.
ghost use Rattle.std.specs.Prelude.{◌≡◌, ℕ, decimal, MatchOption};
ghost use Rattle.asm_demo.specs.Calls.{IsSize};

use itoa::Buffer;

/// The greatest size.
const MOST: u64 = 256;

/// The size that a word writes in decimal, without leading zeros. Takes no memory.
pub fn size_in(word: &str) -> Option<u64>
    ensures { MatchOption result
        ((size : ℕ) → IsSize size → word.now ≡ decimal size → ⊥)
        (λ size. IsSize size × (word.now ≡ decimal size)) }
{
    // the sizes are few, so each is written and compared
    for size in 1..MOST + 1 {
        let mut digits = Buffer::new();
        if digits.format(size) == word {
            return Some(size);
        }
    }
    None
}
