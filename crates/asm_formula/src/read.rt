//! The formula of a text.
ghost use Rattle.std.specs.Prelude.{◌≡◌, length, count_by, option_map};
ghost use Rattle.asm_formula.specs.Tokens.{is_name};
ghost use Rattle.asm_formula.specs.Reading.{Comes, is_too_much, is_among, first_repeated};
ghost use Rattle.asm_formula.specs.Reading.{tree_of, distinct, formula_of};

use crate::formula::{Formula, FormulaRefusal};
use crate::lexing::lex;
use crate::parsing::formula;
use crate::token::Token;
use crate::tokens::{Halt, Tokens};
use asm_base::{Boxed, Text};
use std::alloc::Global;

/// The most tokens of a formula. So no more parentheses are open at once.
const MOST_TOKENS: usize = 64;

/// The most names of a formula.
const MOST_NAMES: usize = 16;

/// How many of the tokens are names.
fn count_names(tokens: &[Token]) -> usize
    ensures { result ≡ count_by is_name tokens.now }
{
    tokens.iter().filter(|token| token.is_name()).count()
}

/// Whether there are more tokens, or more names, than a formula may have.
fn is_too_much(tokens: &[Token]) -> bool
    ensures { result ≡ is_too_much tokens.now }
{
    tokens.len() > MOST_TOKENS || count_names(tokens) > MOST_NAMES
}

/// The formula of these tokens, of a text of so many bytes.
fn tree(alloc: Global, tokens: &[Token], bytes: u64) -> Result<Boxed<Formula>, FormulaRefusal>
    ensures { Comes (tree_of bytes tokens.now) result }
{
    let mut cursor = Tokens::new(tokens);
    match formula(alloc, &mut cursor, MOST_TOKENS) {
        Ok(tree) => {
            if cursor.left() == 0 {
                Ok(tree)
            } else {
                Err(FormulaRefusal::Syntax(cursor.place(bytes)))
            }
        }
        Err(Halt::Syntax) => Err(FormulaRefusal::Syntax(cursor.place(bytes))),
        Err(Halt::NoMemory) => Err(FormulaRefusal::NoMemory),
    }
}

/// Whether the name is among the names.
fn is_among(names: &[Text], name: &str) -> bool
    ensures { result ≡ is_among names.now name.now }
{
    for other in names {
        if name == other.as_str() {
            return true;
        }
    }
    false
}

/// The first name that is there a second time.
fn first_repeated(names: &[Text]) -> Option<&Text>
    ensures { option_map (λ name. name.now) result ≡ first_repeated names.now }
{
    for (at, name) in names.iter().enumerate() {
        if is_among(&names[..at], name.as_str()) {
            return Some(name);
        }
    }
    None
}

/// The formula, unless a name is there twice.
fn distinct(alloc: Global, tree: Boxed<Formula>) -> Result<Formula, FormulaRefusal>
    ensures { Comes (distinct tree) result }
{
    let names = tree.get().names(alloc)?;
    match first_repeated(names.as_slice()) {
        Some(name) => Err(FormulaRefusal::Repeated(name.copy(alloc)?)),
        None => Ok(tree.into_inner()),
    }
}

/// The formula of a text, or its first refusal. The tests come in the order of the refusals: all
/// tokens first, then how many there are, then the grammar, then the names. Spaces alone stand
/// between tokens, and each token is the longest that begins where it does.
#[tactic(auto, unfolding(crate::specs::Reading::formula_of))]
pub fn read_formula(alloc: Global, text: &str) -> Result<Formula, FormulaRefusal>
    ensures { Comes (formula_of text.now) result }
{
    let tokens = lex(alloc, text)?;
    if is_too_much(tokens.as_slice()) {
        return Err(FormulaRefusal::TooMany);
    }
    let tree = tree(alloc, tokens.as_slice(), text.len() as u64)?;
    distinct(alloc, tree)
}
