//! The texts of tokens.
ghost use Rattle.std.specs.Prelude.{◌≡◌};
ghost use Rattle.asm_syntax.specs.Marks.{text_of};

use asm_syntax::{Token, TokenKind};

/// Lends a token's text, empty for a number. Takes no memory.
pub fn text_of(token: &Token) -> &str
    ensures { result.now ≡ text_of token.now }
{
    match &token.kind {
        TokenKind::Number(_) => "",
        TokenKind::Id(text)
        | TokenKind::Var(text)
        | TokenKind::Chars(text)
        | TokenKind::Keyword(text)
        | TokenKind::Refused(text)
        | TokenKind::Symbol(text) => text.as_str(),
    }
}
