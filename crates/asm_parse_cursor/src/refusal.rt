//! Why the tokens that are left aren't read.
use std::alloc::AllocError;

/// Why the tokens that are left aren't read.
#[derive(Clone, Copy, Debug, PartialEq, Eq)]
pub enum GrammarRefusal {
    /// No tree has the next token, or the end, at this place.
    Syntax,
    /// The next token opens one construct too many, or is an operator after an operand that is too
    /// high.
    TooDeep,
    /// Memory ran out. It says nothing about the tokens.
    NoMemory,
}

impl From<AllocError> for GrammarRefusal {
    ghost use Rattle.std.specs.Prelude.{◌≡◌};
    ghost use Rattle.asm_parse_cursor.specs.declared.refusal.GrammarRefusal.TheVariants.{NoMemory};

    ghost from_gives = { λ _ e. e ≡ NoMemory };

    fn from(_error: AllocError) -> GrammarRefusal {
        GrammarRefusal::NoMemory
    }
}
