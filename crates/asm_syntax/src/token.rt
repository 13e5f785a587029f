//! Tokens: what each is, and where it is in its text.
ghost use Rattle.std.specs.Prelude.{◌≡◌, IfOk};
ghost use Rattle.asm_syntax.specs.Marks.{text_of};

use asm_base::Text;
use std::alloc::{AllocError, Global};

/// A part of a text: the byte offset of its first byte, and of the one after its last. Both count
/// from the text's start.
#[derive(Clone, Copy, Debug, PartialEq, Eq)]
pub struct Span {
    pub start: u32,
    pub end: u32,
}

/// What a token is. The name is the token's text: for a `Var` without its `$`, and for a string
/// without its quotes.
#[derive(Drop)]
pub enum TokenKind {
    /// A letter or `_`, then letters, digits and `_`: no keyword and no refused word.
    Id(Text),
    /// The word after a `$`. It may be a keyword or a refused word.
    Var(Text),
    /// From 0 to 2^127 - 1. An `n` that marks the digits is part of the span.
    Number(i128),
    /// The bytes between two quotes, unchanged: there are no escapes.
    Chars(Text),
    /// A word that the grammar quotes.
    Keyword(Text),
    /// A word of the language's origin that this language leaves out.
    Refused(Text),
    /// One or two bytes of punctuation.
    Symbol(Text),
}

impl TokenKind {
    /// An equal kind.
    pub fn copy(&self, alloc: Global) -> Result<TokenKind, AllocError>
        ensures { IfOk result (λ kind. kind ≡ self.now) }
    {
        match self {
            TokenKind::Id(name) => Ok(TokenKind::Id(name.copy(alloc)?)),
            TokenKind::Var(name) => Ok(TokenKind::Var(name.copy(alloc)?)),
            TokenKind::Number(number) => Ok(TokenKind::Number(*number)),
            TokenKind::Chars(name) => Ok(TokenKind::Chars(name.copy(alloc)?)),
            TokenKind::Keyword(name) => Ok(TokenKind::Keyword(name.copy(alloc)?)),
            TokenKind::Refused(name) => Ok(TokenKind::Refused(name.copy(alloc)?)),
            TokenKind::Symbol(name) => Ok(TokenKind::Symbol(name.copy(alloc)?)),
        }
    }
}

/// A token and its place in the text.
#[derive(Drop)]
pub struct Token {
    pub kind: TokenKind,
    pub span: Span,
}

impl Token {
    /// The token's text, in memory of its own: empty for a number. `AllocError` is want of memory.
    pub fn text(&self, alloc: Global) -> Result<Text, AllocError>
        ensures { IfOk result (λ text. text ≡ text_of self.now) }
    {
        match &self.kind {
            TokenKind::Number(_) => Ok(Text::new(alloc)),
            TokenKind::Id(text)
            | TokenKind::Var(text)
            | TokenKind::Chars(text)
            | TokenKind::Keyword(text)
            | TokenKind::Refused(text)
            | TokenKind::Symbol(text) => text.copy(alloc),
        }
    }

    /// An equal token.
    pub fn copy(&self, alloc: Global) -> Result<Token, AllocError>
        ensures { IfOk result (λ token. token ≡ self.now) }
    {
        Ok(Token {
            kind: self.kind.copy(alloc)?,
            span: self.span,
        })
    }
}
