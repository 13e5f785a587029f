//! The program of a text.
ghost use Rattle.std.specs.Prelude.{◌≡◌, ◌≢◌, IfOk, MatchResult};
ghost use Rattle.asm_syntax.specs.Texts.{IsModel};
ghost use Rattle.asm_parse.specs.declared.refusal.ParseRefusal.{ParseRefusal};
ghost use Rattle.asm_parse.specs.Answers.{IsModelCause, IsWithin};
ghost use Rattle.asm_meaning.specs.Texts.{IsProgram, IsBadText, meaning_of_text};

use crate::bad_texts::unread;
use crate::untyped::untyped;
use asm_parse::{ParseRefusal, parse_model};
use asm_program::{BadText, Program};
use asm_syntax::ModelTree;
use asm_types::check;
use std::alloc::{AllocError, Global};

/// The program of a text's tree, or what is reported of it.
fn meaning_of_tree(
    alloc: Global,
    text: &str,
    tree: &ModelTree,
) -> Result<Result<Program, BadText>, AllocError>
    requires { IsModel text.now tree.now }
    ensures { IfOk result (λ found. MatchResult found (IsProgram text.now) (IsBadText text.now)) }
{
    match check(alloc, text, tree) {
        Ok(program) => Ok(Ok(program)),
        Err(why) => Ok(Err(untyped(alloc, text, &why)?)),
    }
}

/// What is reported of a text that has no tree.
fn no_meaning(
    alloc: Global,
    text: &str,
    why: ParseRefusal,
) -> Result<Result<Program, BadText>, AllocError>
    requires cause { why ≢ ParseRefusal.NoMemory → IsModelCause text.now why }
    requires within { IsWithin text.now why }
    ensures { IfOk result (λ found. MatchResult found (IsProgram text.now) (IsBadText text.now)) }
{
    Ok(Err(unread(alloc, text, &why)?))
}

/// The program of a text, or what is reported of it.
fn meaning_of(alloc: Global, text: &str) -> Result<Result<Program, BadText>, AllocError>
    ensures { IfOk result (λ found. MatchResult found (IsProgram text.now) (IsBadText text.now)) }
{
    match parse_model(alloc, text) {
        Ok(tree) => meaning_of_tree(alloc, text, &tree),
        Err(why) => no_meaning(alloc, text, why),
    }
}

/// The one program of a text, or what is reported of a text that has none: its first refusal.
/// `AllocError` is want of memory, and says nothing about the text.
pub fn program_of(alloc: Global, text: &str) -> Result<Result<Program, BadText>, AllocError>
    ensures { IfOk result (λ found. found ≡ meaning_of_text text.now) }
{
    meaning_of(alloc, text)
}
