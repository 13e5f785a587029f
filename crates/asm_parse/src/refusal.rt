//! Why a text has no tree.
ghost use Rattle.std.specs.Prelude.{◌≡◌};
ghost use Rattle.asm_syntax.specs.Refusals.{offset_of, syntax_refusal};
ghost use Rattle.asm_parse.specs.Refusals.{Tells, TellsImport, TellsToken, TellsWhy, unlexed};

use crate::foreign::{Foreign, last};
use asm_lex::LexRefusal;
use asm_parse_cursor::GrammarRefusal;
use asm_syntax::{Text, Token, TokenKind};
use std::alloc::Global;
use thiserror::Error;

/// Why a text has no tree: its first refusal. A refusal of the lexer wins over those of the
/// grammar.
/// Places are byte offsets from the text's start.
#[derive(Debug, Drop, Error)]
pub enum ParseRefusal {
    /// The text isn't read to its end as tokens.
    #[error("{0}")]
    Lex(LexRefusal),
    /// A token, or the text's end, is where no tree has it.
    #[error("no tree has what stands at byte {0}")]
    Syntax(u32),
    /// A word that the language leaves out is where no tree has it, or an import isn't of the
    /// standard library: the word, or the last part of the import.
    #[error("the language has no {word}, which stands at byte {1}", word = .0.as_str())]
    Unsupported(Text, u32),
    /// More than 64 constructs are open at once, or an operator comes after a term that is higher
    /// than 63.
    #[error("more than 64 constructs are open at byte {0}")]
    TooDeep(u32),
    /// Memory ran out. It says nothing about the text.
    #[error("memory ran out")]
    NoMemory,
}

/// The refusal of a text that the lexer refuses.
pub(crate) fn unlexed(why: LexRefusal) -> ParseRefusal
    ensures { result ≡ unlexed why }
{
    match why {
        LexRefusal::NoMemory => ParseRefusal::NoMemory,
        LexRefusal::TextTooLong(_)
        | LexRefusal::BadByte(_)
        | LexRefusal::OpenComment(_)
        | LexRefusal::OpenString(_)
        | LexRefusal::NumberTooLarge(_) => ParseRefusal::Lex(why),
    }
}

/// Where these tokens begin, in a text of so many bytes.
fn place(rest: &[Token], bytes: u32) -> u32
    ensures { result ≡ offset_of bytes rest.now }
{
    match rest.first() {
        Some(token) => token.span.start,
        None => bytes,
    }
}

/// The refusal of a text of so many bytes whose tokens aren't read from here on.
pub(crate) fn refusal(
    alloc: Global,
    why: GrammarRefusal,
    rest: &[Token],
    bytes: u32,
) -> ParseRefusal
    ensures { TellsWhy bytes why rest.now result }
{
    match why {
        GrammarRefusal::Syntax => syntax(alloc, rest, bytes),
        GrammarRefusal::TooDeep => ParseRefusal::TooDeep(place(rest, bytes)),
        GrammarRefusal::NoMemory => ParseRefusal::NoMemory,
    }
}

/// The refusal of a token that no tree has there, or of the end.
pub(crate) fn syntax(alloc: Global, rest: &[Token], bytes: u32) -> ParseRefusal
    ensures { Tells bytes (syntax_refusal rest.now) rest.now result }
{
    match rest.first() {
        Some(token) => at_token(alloc, token),
        None => ParseRefusal::Syntax(bytes),
    }
}

/// The refusal of a token that no tree has there.
fn at_token(alloc: Global, token: &Token) -> ParseRefusal
    ensures { TellsToken token.now result }
{
    let at = token.span.start;
    match &token.kind {
        TokenKind::Refused(word) => match word.copy(alloc) {
            Ok(word) => ParseRefusal::Unsupported(word, at),
            Err(_error) => ParseRefusal::NoMemory,
        },
        TokenKind::Id(_)
        | TokenKind::Var(_)
        | TokenKind::Number(_)
        | TokenKind::Chars(_)
        | TokenKind::Keyword(_)
        | TokenKind::Symbol(_) => ParseRefusal::Syntax(at),
    }
}

/// The refusal of an import that isn't of the standard library.
pub(crate) fn unsupported(alloc: Global, import: &Foreign<'_>, bytes: u32) -> ParseRefusal
    ensures { TellsImport bytes import.now result }
{
    let at = place(import.rest, bytes);
    match last(&import.first, import.others.as_slice()).text(alloc) {
        Ok(name) => ParseRefusal::Unsupported(name, at),
        Err(_error) => ParseRefusal::NoMemory,
    }
}
