//! What is reported of a text that is refused.
ghost use Rattle.std.specs.Prelude.{◌≤◌, length};
ghost use Rattle.asm_syntax.specs.Texts.{most_bytes};

use asm_lex::LexRefusal;
use asm_parse::ParseRefusal;
use asm_syntax::{LineColumn, place};
use std::alloc::{AllocError, Global};

/// The refusal in words, after its line and column where it is at a byte: `2:5: ...`.
pub(crate) fn message(alloc: Global, text: &str, why: &ParseRefusal) -> Result<String, AllocError> {
    match byte(why) {
        Some(at) => {
            let LineColumn { line, column } = place(text, within(text, at));
            format!(in alloc; "{line}:{column}: {why}")
        }
        None => format!(in alloc; "{why}"),
    }
}

/// The byte at which a text is refused.
fn byte(why: &ParseRefusal) -> Option<u32> {
    match why {
        ParseRefusal::Lex(why) => lexer_byte(*why),
        ParseRefusal::Syntax(at) | ParseRefusal::TooDeep(at) => Some(*at),
        ParseRefusal::Unsupported(_, at) => Some(*at),
        ParseRefusal::NoMemory => None,
    }
}

fn lexer_byte(why: LexRefusal) -> Option<u32> {
    match why {
        LexRefusal::TextTooLong(_) | LexRefusal::NoMemory => None,
        LexRefusal::BadByte(at)
        | LexRefusal::OpenComment(at)
        | LexRefusal::OpenString(at)
        | LexRefusal::NumberTooLarge(at) => Some(at),
    }
}

/// A byte of the text, or its end where that comes first.
fn within(text: &str, at: u32) -> u32
    ensures within { result ≤ length text.now }
    ensures most { result ≤ most_bytes }
{
    let end = u32::try_from(text.len()).unwrap_or(262_144);
    at.min(end).min(262_144)
}
