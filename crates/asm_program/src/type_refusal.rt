//! Why a tree is no program.
ghost use Rattle.std.specs.Prelude.{◌≡◌};
ghost use Rattle.asm_program.specs.declared.type_refusal.TypeRefusal.TheVariants.{NoMemory};

use asm_base::Text;
use asm_syntax::Span;
use std::alloc::AllocError;

/// What there are too many of, or what is too large.
#[derive(Clone, Copy, Debug, PartialEq, Eq)]
pub enum Limited {
    /// More than 256 declared domains.
    Domains,
    /// More than 256 declared functions.
    Functions,
    /// More than 256 macro rules, the main rule included.
    Macros,
    /// More than 64 invariants.
    Invariants,
    /// More than 8 parts of a product, arguments, parameters or items of a tuple.
    Parts,
    /// More than 256 literals of an enumeration, or 4,096 integers of a subset.
    Members,
    /// A string of more than 1,024 bytes.
    Chars,
    /// A product of more than 65,536 members where each is taken.
    Product,
    /// A powerset over more than 12 members where each is taken.
    Powerset,
    /// A path of more than 512 nodes, called bodies included.
    Depth,
}

/// The first refusal of a tree that is no program.
#[derive(Debug, Drop)]
pub enum TypeRefusal {
    /// The name is there already, at its second use.
    Duplicate(Text, Span),
    /// Nothing of this name is declared.
    Unknown(Text, Span),
    /// Types that don't go together.
    Mismatch(Span),
    /// The definition reaches itself by calls.
    Recursive(Text, Span),
    /// A domain whose members can't be taken one by one.
    NotEnumerable(Span),
    /// A declaration without the definition that it needs.
    Missing(Text, Span),
    /// The number that is too large.
    Limit(Limited, u128, Span),
    /// The work of the text, 2^32 where it is more.
    TooMuchWork(u64, Span),
    /// Memory ran out. It says nothing about the tree.
    NoMemory,
}

impl From<AllocError> for TypeRefusal {
    ghost from_gives = { λ _ e. e ≡ NoMemory };

    fn from(_error: AllocError) -> TypeRefusal {
        TypeRefusal::NoMemory
    }
}
