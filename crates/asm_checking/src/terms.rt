//! The term of a text alone.
ghost use Rattle.std.specs.Prelude.{◌≡◌, ◌≢◌, Option, IfOk, MatchResult};
ghost use Rattle.asm_value.specs.declared.domain.Domain.{Domain as Wanted};
ghost use Rattle.asm_syntax.specs.Texts.{IsTerm};
ghost use Rattle.asm_parse.specs.declared.refusal.ParseRefusal.{ParseRefusal};
ghost use Rattle.asm_parse.specs.Answers.{IsTermCause, IsWithin};
ghost use Rattle.asm_program.specs.declared.program.Program.{Program as Programs};
ghost use Rattle.asm_meaning.specs.Terms.{IsTypedText, IsBadTerm, meaning_of_term};

use crate::bad_texts::unread;
use crate::untyped::untyped;
use asm_parse::{ParseRefusal, parse_term};
use asm_program::{BadText, CheckedTerm, Program};
use asm_syntax::TermTree;
use asm_types::{TypedTerm, check_term};
use asm_value::Domain;
use std::alloc::{AllocError, Global};

/// A typed term that begins at this byte of its text.
fn checked(typed: TypedTerm, start: u32) -> CheckedTerm
    ensures { result ≡ record { term = typed.term; work = typed.work; start = start } }
{
    let TypedTerm { term, work, .. } = typed;
    CheckedTerm { term, work, start }
}

/// The term of a tree, or what is reported of it.
fn meaning_of_tree(
    alloc: Global,
    program: &Program,
    wanted: Option<Domain>,
    text: &str,
    tree: &TermTree,
) -> Result<Result<CheckedTerm, BadText>, AllocError>
    requires { IsTerm text.now tree.now }
    ensures { IfOk result (λ found. MatchResult found
        (IsTypedText program.now wanted text.now) (IsBadTerm program.now wanted text.now)) }
{
    match check_term(alloc, program, tree, wanted) {
        Ok(typed) => Ok(Ok(checked(typed, tree.span().start))),
        Err(why) => Ok(Err(untyped(alloc, text, &why)?)),
    }
}

/// What is reported of a text that has no tree, whatever the program declares.
fn no_meaning(
    alloc: Global,
    text: &str,
    why: ParseRefusal,
) -> Result<Result<CheckedTerm, BadText>, AllocError>
    requires cause { why ≢ ParseRefusal.NoMemory → IsTermCause text.now why }
    requires within { IsWithin text.now why }
    ensures { (program : Programs) (wanted : Option Wanted) → IfOk result (λ found.
        MatchResult found (IsTypedText program wanted text.now) (IsBadTerm program wanted text.now)) }
{
    Ok(Err(unread(alloc, text, &why)?))
}

/// The term of a text, or what is reported of it.
fn meaning_of(
    alloc: Global,
    program: &Program,
    wanted: Option<Domain>,
    text: &str,
) -> Result<Result<CheckedTerm, BadText>, AllocError>
    ensures { IfOk result (λ found. MatchResult found
        (IsTypedText program.now wanted text.now) (IsBadTerm program.now wanted text.now)) }
{
    match parse_term(alloc, text) {
        Ok(tree) => meaning_of_tree(alloc, program, wanted, text, &tree),
        Err(why) => no_meaning(alloc, text, why),
    }
}

/// The one term of a text over what a program declares, of a domain where one is wanted, or what is
/// reported of a text that has none: its first refusal. `AllocError` is want of memory, and says
/// nothing about the text.
pub fn term_of(
    alloc: Global,
    program: &Program,
    wanted: Option<Domain>,
    text: &str,
) -> Result<Result<CheckedTerm, BadText>, AllocError>
    ensures { IfOk result (λ found. found ≡ meaning_of_term program.now wanted text.now) }
{
    meaning_of(alloc, program, wanted, text)
}
