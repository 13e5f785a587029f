//! Parameters and equations, of which functions and initial states are made.
ghost use Rattle.asm_parse_cursor.specs.Reads.{Reads};
ghost use Rattle.asm_parse_theory.specs.Models as reading;

use asm_parse_cursor::{GrammarRefusal, Tokens};
use asm_parse_domains::{identifier, params};
use asm_parse_terms::term;
use asm_syntax::{Boxed, ParamsTree, TermTree, Token};
use std::alloc::Global;

/// [params]
#[tactic(auto, unfolding(asm_parse_theory::specs::Models::parameters))]
pub(crate) fn parameters(
    alloc: Global,
    tokens: &mut Tokens<'_>,
    depth: usize,
) -> Result<Option<ParamsTree>, GrammarRefusal>
    ensures { Reads (reading.parameters depth tokens.old) result tokens.new }
{
    if !tokens.sees_sign("(") {
        return Ok(None);
    }
    let params = params(alloc, tokens, depth)?;
    Ok(Some(params))
}

/// "function" ID [params] "=" term
#[tactic(auto, unfolding(asm_parse_theory::specs::Models::equation))]
pub(crate) fn equation(
    alloc: Global,
    tokens: &mut Tokens<'_>,
    depth: usize,
) -> Result<(Token, (Option<ParamsTree>, Boxed<TermTree>)), GrammarRefusal>
    ensures { Reads (reading.equation depth tokens.old) result tokens.new }
{
    let _function = tokens.expect_word("function")?;
    let name = identifier(alloc, tokens)?;
    let given = equated(alloc, tokens, depth)?;
    Ok((name, given))
}

/// [params] "=" term
fn equated(
    alloc: Global,
    tokens: &mut Tokens<'_>,
    depth: usize,
) -> Result<(Option<ParamsTree>, Boxed<TermTree>), GrammarRefusal>
    ensures { Reads (reading.equation_body depth tokens.old) result tokens.new }
{
    let params = parameters(alloc, tokens, depth)?;
    let _equals = tokens.expect_sign("=")?;
    let term = term(alloc, tokens, depth)?;
    Ok((params, term))
}
