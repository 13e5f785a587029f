//! The tokens of a formula's text.
ghost use Rattle.asm_formula.specs.Reading.{Comes, tokens_of};

use crate::formula::FormulaRefusal;
use crate::front::front;
use crate::token::{Front, Token};
use asm_base::List;
use std::alloc::Global;

/// The tokens of a text, in text order, or the first byte that is no space and begins none.
pub(crate) fn lex(alloc: Global, text: &str) -> Result<List<Token>, FormulaRefusal>
    ensures { Comes (tokens_of text.now) result }
{
    let mut tokens = List::new(alloc);
    let mut at = 0;
    while at < text.len() {
        match front(alloc, text, at)? {
            Front::Blank => at += 1,
            Front::Taken(kind, len) => {
                let place = at as u64;
                tokens.push(Token { kind, at: place })?;
                at += len;
            }
            Front::Nothing => return Err(FormulaRefusal::Syntax(at as u64)),
        }
    }
    Ok(tokens)
}
