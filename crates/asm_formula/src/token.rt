//! The tokens of a formula's text.
use crate::formula::Operator;
use asm_base::Text;
use std::alloc::{AllocError, Global};

/// What a token is.
#[derive(Debug, Drop)]
pub(crate) enum TokenKind {
    /// A letter or `_`, then letters, digits and `_`: the name of a model.
    Name(Text),
    /// `|`, `||`, `<|>` or `<||>`.
    Joins(Operator),
    /// `(`.
    Opens,
    /// `)`.
    Closes,
}

/// A token, and the offset of its first byte from the text's start.
#[derive(Debug, Drop)]
pub(crate) struct Token {
    pub(crate) kind: TokenKind,
    pub(crate) at: u64,
}

impl Token {
    ghost use Rattle.std.specs.Prelude.{◌≡◌, IfOk};
    ghost use Rattle.asm_formula.specs.Tokens.{is_name};
    ghost use Rattle.asm_formula.specs.Grammar.{kind_name};

    /// Whether it is a name.
    pub(crate) fn is_name(&self) -> bool
        ensures { result ≡ is_name self.now }
    {
        match &self.kind {
            TokenKind::Name(_) => true,
            TokenKind::Joins(_) | TokenKind::Opens | TokenKind::Closes => false,
        }
    }

    /// The name that it is, in memory of its own: empty where it is none.
    pub(crate) fn name(&self, alloc: Global) -> Result<Text, AllocError>
        ensures { IfOk result (λ name. name ≡ kind_name self.now.kind) }
    {
        match &self.kind {
            TokenKind::Name(name) => name.copy(alloc),
            TokenKind::Joins(_) | TokenKind::Opens | TokenKind::Closes => Ok(Text::new(alloc)),
        }
    }
}

/// What is at an offset of a text.
#[derive(Drop)]
pub(crate) enum Front {
    /// A space.
    Blank,
    /// The longest token, and how many bytes it has.
    Taken(TokenKind, usize),
    /// Neither.
    Nothing,
}
