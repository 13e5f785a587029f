//! The canonical text of a term, and of a model.
ghost use Rattle.std.specs.Prelude.{◌≡◌, IfOk};
ghost use Rattle.asm_syntax.specs.Canonical.{canonical_term, canonical};
ghost use Rattle.asm_print.specs.Again.{IsTermAgain, IsModelAgain};

use crate::models::put_model;
use asm_print_terms::{Writer, put_term};
use asm_print_theory::{a_canonical_model_is_read_again, a_canonical_term_is_read_again};
use asm_syntax::{ModelTree, TermTree, Text};
use std::alloc::{AllocError, Global};

/// The canonical text of a term: its tokens with one space between two of them, and with
/// parentheses only where the grammar needs them. It is read again as the same term, apart from
/// spans, where some text has the term and this one has at most 262,144 bytes. `AllocError` is want
/// of memory.
pub fn print_term(alloc: Global, tree: &TermTree) -> Result<Text, AllocError>
    ensures text { IfOk result (λ text. text ≡ canonical_term tree.now) }
    ensures again { IfOk result (IsTermAgain tree.now) }
{
    a_canonical_term_is_read_again();
    written_term(alloc, tree)
}

#[tactic(auto, using(asm_print_terms::proofs::Texts::term_text))]
fn written_term(alloc: Global, tree: &TermTree) -> Result<Text, AllocError>
    ensures { IfOk result (λ text. text ≡ canonical_term tree.now) }
{
    let mut out = Writer::new(alloc);
    put_term(&mut out, tree, 0)?;
    Ok(out.into_text())
}

/// The canonical text of a model: a line for its name, for each heading, declaration, definition
/// and initial term, and for the main rule, each with a line feed after it. Imports, `dynamic` and
/// `macro` are left out. It is read again as the same model, apart from spans, where some text has
/// the model and this one has at most 262,144 bytes. `AllocError` is want of memory.
pub fn print_model(alloc: Global, tree: &ModelTree) -> Result<Text, AllocError>
    ensures text { IfOk result (λ text. text ≡ canonical tree.now) }
    ensures again { IfOk result (IsModelAgain tree.now) }
{
    a_canonical_model_is_read_again();
    written_model(alloc, tree)
}

#[tactic(auto, using(asm_print_terms::proofs::Texts::model_text))]
fn written_model(alloc: Global, tree: &ModelTree) -> Result<Text, AllocError>
    ensures { IfOk result (λ text. text ≡ canonical tree.now) }
{
    let mut out = Writer::new(alloc);
    put_model(&mut out, tree)?;
    Ok(out.into_text())
}
