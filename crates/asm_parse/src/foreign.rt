//! The first import of a model that isn't of the standard library.
ghost use Rattle.std.specs.Prelude.{◌≡◌, length, IfOk};
ghost use Rattle.asm_syntax.specs.Marks.{last_of};
ghost use Rattle.asm_syntax.specs.Grammar.{is_standard};
ghost use Rattle.asm_parse_cursor.specs.Reads.{ReadsAs};
ghost use Rattle.asm_parse_theory.specs.Models as reading;
ghost use Rattle.asm_parse.specs.Imports.{Finds, Steps, StepsInParts};

use crate::imports::parts;
use asm_parse_cursor::{GrammarRefusal, Tokens};
use asm_syntax::{List, Token, TokenKind};
use std::alloc::{AllocError, Global};

/// The parts of an import, and the tokens from its parts on.
#[derive(Drop)]
pub(crate) struct Foreign<'a> {
    pub(crate) first: Token,
    pub(crate) others: List<Token>,
    pub(crate) rest: &'a [Token],
}

/// What comes next, where an import may.
#[derive(Drop)]
enum Next<'a> {
    /// An import of the standard library, which was taken.
    Standard,
    Foreign(Foreign<'a>),
    /// No whole import.
    Nothing,
}

/// The first import of a model that isn't of the standard library, if all before it are whole.
#[tactic(auto, unfolding(asm_parse_theory::specs::Models::first_foreign))]
pub(crate) fn first_foreign<'a>(
    alloc: Global,
    tokens: &'a [Token],
) -> Result<Option<Foreign<'a>>, AllocError>
    ensures { IfOk result (λ found. Finds found (reading.first_foreign tokens.now)) }
{
    let mut ahead = Tokens::new(tokens);
    match title(&mut ahead) {
        Ok(_title) => foreign_among(alloc, &mut ahead),
        Err(GrammarRefusal::Syntax) => Ok(None),
        Err(GrammarRefusal::TooDeep) => Ok(None),
        Err(GrammarRefusal::NoMemory) => Err(AllocError),
    }
}

/// "asm" ID
fn title<'a>(tokens: &mut Tokens<'a>) -> Result<(&'a Token, &'a Token), GrammarRefusal>
    ensures { ReadsAs (λ t. (t.0.now, t.1.now)) (reading.title tokens.old) result tokens.new }
{
    let word = tokens.expect_word("asm")?;
    let name = tokens.expect_id()?;
    Ok((word, name))
}

/// The first of the next imports that isn't of the standard library.
fn foreign_among<'a>(
    alloc: Global,
    tokens: &mut Tokens<'a>,
) -> Result<Option<Foreign<'a>>, AllocError>
    ensures { IfOk result (λ f. Finds f (reading.foreign_among (length tokens.old) tokens.old)) }
{
    for _turn in 0..tokens.left() {
        match next_import(alloc, tokens)? {
            Next::Standard => {}
            Next::Foreign(import) => return Ok(Some(import)),
            Next::Nothing => return Ok(None),
        }
    }
    Ok(None)
}

/// The next import.
fn next_import<'a>(alloc: Global, tokens: &mut Tokens<'a>) -> Result<Next<'a>, AllocError>
    ensures { IfOk result (λ step. Steps tokens.old step tokens.new) }
{
    match tokens.expect_word("import") {
        Ok(_import) => next_parts(alloc, tokens),
        Err(GrammarRefusal::Syntax) => Ok(Next::Nothing),
        Err(GrammarRefusal::TooDeep) => Ok(Next::Nothing),
        Err(GrammarRefusal::NoMemory) => Err(AllocError),
    }
}

/// The import whose parts come next.
fn next_parts<'a>(alloc: Global, tokens: &mut Tokens<'a>) -> Result<Next<'a>, AllocError>
    ensures { IfOk result (λ step. StepsInParts tokens.old step tokens.new) }
{
    let rest = tokens.rest();
    match parts(alloc, tokens) {
        Ok((first, others)) => {
            if is_standard(&first, others.as_slice()) {
                Ok(Next::Standard)
            } else {
                Ok(Next::Foreign(Foreign {
                    first,
                    others,
                    rest,
                }))
            }
        }
        Err(GrammarRefusal::Syntax) => Ok(Next::Nothing),
        Err(GrammarRefusal::TooDeep) => Ok(Next::Nothing),
        Err(GrammarRefusal::NoMemory) => Err(AllocError),
    }
}

/// Whether an import with these parts ends in `StandardLibrary`.
fn is_standard(first: &Token, others: &[Token]) -> bool
    ensures { result ≡ is_standard (first.now, others.now) }
{
    match &last(first, others).kind {
        TokenKind::Id(name) => name.as_str() == "StandardLibrary",
        TokenKind::Var(_)
        | TokenKind::Number(_)
        | TokenKind::Chars(_)
        | TokenKind::Keyword(_)
        | TokenKind::Refused(_)
        | TokenKind::Symbol(_) => false,
    }
}

/// The last of one token and others.
pub(crate) fn last<'a>(first: &'a Token, others: &'a [Token]) -> &'a Token
    ensures { result.now ≡ last_of first.now others.now }
{
    match others.last() {
        Some(token) => token,
        None => first,
    }
}
