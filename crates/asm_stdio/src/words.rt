//! The words of the command line.
ghost use Rattle.std.specs.Prelude.{◌≡◌, ◌↔◌, ℕ, true, MatchOption};
ghost use Rattle.asm_stdio.specs.Words as spec;
ghost use Rattle.asm_stdio.specs.Words.{AreStdio, AreDemo};

use asm_demo::size_in;

/// What the words ask for.
pub enum Asked {
    /// Lines that are answered.
    Stdio,
    /// The demo of this size.
    Demo(u64),
    /// Nothing that there is.
    Other,
}

fn are_stdio(words: &[String]) -> bool
    ensures { (result ≡ true) ↔ AreStdio words.now }
{
    match words {
        [word] => word.as_str() == "stdio",
        _ => false,
    }
}

/// The size of the demo for which the words ask.
fn demo_in(words: &[String]) -> Option<u64>
    ensures { MatchOption result
        ((size : ℕ) → AreDemo size words.now → ⊥)
        (λ size. AreDemo size words.now) }
{
    match words {
        [word, size] => {
            if word.as_str() == "demo" {
                size_in(size.as_str())
            } else {
                None
            }
        }
        _ => None,
    }
}

/// What the words ask for. Takes no memory.
pub fn asked_by(words: &[String]) -> Asked
    ensures { spec.IsAsked result words.now }
{
    if are_stdio(words) {
        return Asked::Stdio;
    }
    match demo_in(words) {
        Some(size) => Asked::Demo(size),
        None => Asked::Other,
    }
}
