//! Texts as trees.
ghost use Rattle.std.specs.Prelude.{◌≡◌, ◌≢◌, ℕ, List, None, IfOk, IfErr};
ghost use Rattle.asm_syntax.specs.declared.tree.ModelTree.{ModelTree as Tree};
ghost use Rattle.asm_syntax.specs.declared.tree.TermTree.{TermTree as Term};
ghost use Rattle.asm_syntax.specs.Texts.{IsModel, IsTerm};
ghost use Rattle.asm_parse_cursor.specs.Reads.{Reads};
ghost use Rattle.asm_parse_theory.specs.Models as reading;
ghost use Rattle.asm_parse_theory.specs.Terms as terms;
ghost use Rattle.asm_parse.specs.declared.refusal.ParseRefusal.{ParseRefusal as Refusal};
ghost use Rattle.asm_parse.specs.Answers.{AreApart, AtMostOne, IsModelCause, IsRead, IsTermCause};
ghost use Rattle.asm_parse.specs.Answers.{IsTold, IsWithin};
ghost use Rattle.asm_parse.specs.Tokens.{AnswersModel, AnswersTerm};

use crate::foreign::first_foreign;
use crate::models::model_tree;
use crate::refusal::{ParseRefusal, refusal, syntax, unlexed, unsupported};
use asm_lex::{lex, one_reading};
use asm_parse_cursor::{GrammarRefusal, Tokens};
use asm_parse_terms::term;
use asm_syntax::{Boxed, ModelTree, TermTree, Token};
use std::alloc::Global;

/// The most constructs that are open at once.
const MOST_OPEN: usize = 64;

// ---- lists of tokens

/// The model of a whole list of tokens, of a text of so many bytes.
fn whole_model(alloc: Global, tokens: &[Token], bytes: u32) -> Result<ModelTree, ParseRefusal>
    ensures { AnswersModel bytes tokens.now result }
{
    match first_foreign(alloc, tokens) {
        Ok(None) => known_model(alloc, tokens, bytes),
        Ok(Some(import)) => Err(unsupported(alloc, &import, bytes)),
        Err(_error) => Err(ParseRefusal::NoMemory),
    }
}

/// The same where each import is of the standard library.
fn known_model(alloc: Global, tokens: &[Token], bytes: u32) -> Result<ModelTree, ParseRefusal>
    requires known { reading.first_foreign tokens.now ≡ None }
    ensures { AnswersModel bytes tokens.now result }
{
    let mut cursor = Tokens::new(tokens);
    match model_tree(alloc, &mut cursor, MOST_OPEN) {
        Ok(tree) => {
            if cursor.left() == 0 {
                Ok(tree)
            } else {
                Err(syntax(alloc, cursor.rest(), bytes))
            }
        }
        Err(why) => Err(refusal(alloc, why, cursor.rest(), bytes)),
    }
}

/// The term of a whole list of tokens, of a text of so many bytes.
fn whole_term(alloc: Global, tokens: &[Token], bytes: u32) -> Result<TermTree, ParseRefusal>
    ensures { AnswersTerm bytes tokens.now result }
{
    match boxed_term(alloc, tokens, bytes) {
        Ok(tree) => Ok(tree.into_inner()),
        Err(why) => Err(why),
    }
}

/// term
fn read_term(alloc: Global, tokens: &mut Tokens<'_>) -> Result<Boxed<TermTree>, GrammarRefusal>
    ensures { Reads (terms.term 64 tokens.old) result tokens.new }
{
    term(alloc, tokens, MOST_OPEN)
}

/// The same, in a box.
fn boxed_term(alloc: Global, tokens: &[Token], bytes: u32) -> Result<Boxed<TermTree>, ParseRefusal>
    ensures { AnswersTerm bytes tokens.now result }
{
    let mut cursor = Tokens::new(tokens);
    match read_term(alloc, &mut cursor) {
        Ok(tree) => {
            if cursor.left() > 0 {
                Err(syntax(alloc, cursor.rest(), bytes))
            } else {
                Ok(tree)
            }
        }
        Err(why) => Err(refusal(alloc, why, cursor.rest(), bytes)),
    }
}

// ---- texts

/// The one tree of a model's text, or its first refusal. Blanks and comments leave nothing in the
/// tree.
pub fn parse_model(alloc: Global, text: &str) -> Result<ModelTree, ParseRefusal>
    // what is answered is so
    ensures found { IfOk result (λ tree. IsModel text.now tree) }
    ensures cause { IfErr result (λ why. why ≢ ParseRefusal.NoMemory → IsModelCause text.now why) }

    // what is so is answered, unless memory runs out
    ensures only { (tree : Tree) → IsModel text.now tree → IsRead tree result }
    ensures first { (why : Refusal) → IsModelCause text.now why → IsTold why result }

    // its place is one of the text
    ensures within { IfErr result (IsWithin text.now) }
{
    match lex(alloc, text) {
        Ok(tokens) => whole_model(alloc, tokens.as_slice(), text.len() as u32),
        Err(why) => Err(unlexed(why)),
    }
}

/// The one tree of a term's text, or its first refusal.
pub fn parse_term(alloc: Global, text: &str) -> Result<TermTree, ParseRefusal>
    // what is answered is so
    ensures found { IfOk result (λ tree. IsTerm text.now tree) }
    ensures cause { IfErr result (λ why. why ≢ ParseRefusal.NoMemory → IsTermCause text.now why) }

    // what is so is answered, unless memory runs out
    ensures only { (tree : Term) → IsTerm text.now tree → IsRead tree result }
    ensures first { (why : Refusal) → IsTermCause text.now why → IsTold why result }

    // its place is one of the text
    ensures within { IfErr result (IsWithin text.now) }
{
    match lex(alloc, text) {
        Ok(tokens) => whole_term(alloc, tokens.as_slice(), text.len() as u32),
        Err(why) => Err(unlexed(why)),
    }
}

// ---- laws

/// A text has one tree at most as a model.
pub fn one_tree()
    ensures { (text : List ℕ) (t u : Tree) → IsModel text t → IsModel text u → t ≡ u }
{
    one_reading();
}

/// A text has one tree at most as a term.
pub fn one_term()
    ensures { (text : List ℕ) (t u : Term) → IsTerm text t → IsTerm text u → t ≡ u }
{
    one_reading();
}

/// A text has one first refusal at most, at one place, and none where it has a tree.
pub fn one_refusal()
    ensures model { (text : List ℕ) → AtMostOne (IsModelCause text) }
    ensures term { (text : List ℕ) → AtMostOne (IsTermCause text) }
    ensures no_model { (text : List ℕ) → AreApart (λ t. IsModel text t) (IsModelCause text) }
    ensures no_term { (text : List ℕ) → AreApart (λ t. IsTerm text t) (IsTermCause text) }
{
    one_reading();
}
