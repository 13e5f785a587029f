//! What is reported of a text that isn't read as a tree.
ghost use Rattle.std.specs.Prelude.{◌≡◌, ◌≢◌, ◌≤◌, length, codes, decimal, IfOk};
ghost use Rattle.asm_syntax.specs.Texts.{most_bytes};
ghost use Rattle.asm_lex.specs.Spans as lexer;
ghost use Rattle.asm_parse.specs.Answers.{IsWithin};
ghost use Rattle.asm_meaning.specs.Texts as spec;
ghost use Rattle.asm_checking.specs.Reported.{reported_lex, reported_parse};

use asm_lex::LexRefusal;
use asm_parse::ParseRefusal;
use asm_program::BadText;
use asm_syntax::{place, within};
use asm_value::Text;
use std::alloc::{AllocError, Global};

/// A refusal at a byte of the text, or at its end.
fn reported_at(
    alloc: Global,
    text: &str,
    at: u32,
    kind: &str,
    more: &str,
) -> Result<BadText, AllocError>
    requires within { at ≤ length text.now }
    requires most { at ≤ most_bytes }
    ensures { IfOk result (λ bad. bad ≡ spec.reported_at text.now at kind.now more.now) }
{
    let there = place(text, at);
    Ok(BadText {
        kind: Text::from_str(alloc, kind)?,
        more: Text::from_str(alloc, more)?,
        line: there.line,
        column: there.column,
    })
}

/// A refusal at a byte of a text that isn't too long, at its end where the text has no such byte.
#[tactic(auto, using(crate::proofs::Places::same_place))]
pub(crate) fn reported_in(
    alloc: Global,
    text: &str,
    at: u32,
    kind: &str,
    more: &str,
) -> Result<BadText, AllocError>
    requires { length text.now ≤ most_bytes }
    ensures { IfOk result (λ bad. bad ≡ spec.reported_at text.now at kind.now more.now) }
{
    reported_at(alloc, text, within(text, at), kind, more)
}

/// The refusal of a text with so many bytes, which are too many.
fn too_long(alloc: Global, text: &str, bytes: usize) -> Result<BadText, AllocError>
    ensures { IfOk result (λ bad. bad
        ≡ spec.reported_at text.now 0 (codes "TextTooLong") (decimal bytes)) }
{
    let digits = format!(in alloc; "{bytes}")?;
    reported_at(alloc, text, 0, "TextTooLong", digits.as_str())
}

/// The refusal of a text that isn't read to its end as tokens.
fn unlexed(alloc: Global, text: &str, why: LexRefusal) -> Result<BadText, AllocError>
    requires { lexer.IsWithin text.now why }
    ensures { IfOk result (λ bad. bad ≡ reported_lex text.now why) }
{
    match why {
        LexRefusal::TextTooLong(bytes) => too_long(alloc, text, bytes),
        LexRefusal::BadByte(at) => reported_in(alloc, text, at, "BadByte", ""),
        LexRefusal::OpenComment(at) => reported_in(alloc, text, at, "OpenComment", ""),
        LexRefusal::OpenString(at) => reported_in(alloc, text, at, "OpenString", ""),
        LexRefusal::NumberTooLarge(at) => reported_in(alloc, text, at, "NumberTooLarge", ""),
        LexRefusal::NoMemory => Err(AllocError),
    }
}

/// The refusal of a text that has no tree, as it is reported.
pub(crate) fn unread(alloc: Global, text: &str, why: &ParseRefusal) -> Result<BadText, AllocError>
    requires { IsWithin text.now why.now }
    ensures some { IfOk result (λ bad. why.now ≢ ParseRefusal.NoMemory) }
    ensures told { IfOk result (λ bad. bad ≡ reported_parse text.now why.now) }
{
    match why {
        ParseRefusal::Lex(why) => unlexed(alloc, text, *why),
        ParseRefusal::Syntax(at) => reported_in(alloc, text, *at, "Syntax", ""),
        ParseRefusal::Unsupported(word, at) => {
            reported_in(alloc, text, *at, "Unsupported", word.as_str())
        }
        ParseRefusal::TooDeep(at) => reported_in(alloc, text, *at, "TooDeep", ""),
        ParseRefusal::NoMemory => Err(AllocError),
    }
}
