//! The formula at the front of tokens: a function for each line of the grammar. On a refusal the
//! tokens left begin with the one that is refused.
ghost use Rattle.asm_formula.specs.Parsing as reading;
ghost use Rattle.asm_formula.specs.Parsing.{part, operand, enclosed, further};
ghost use Rattle.asm_formula.specs.Reads.{Reads};

use crate::formula::{Formula, Operator};
use crate::tokens::{Halt, Tokens};
use asm_base::Boxed;
use std::alloc::Global;

/// formula = part {operator part}, with one and the same operator, in which fewer than `depth`
/// parentheses are open at once.
#[cycle(formula)]
pub(crate) fn formula(
    alloc: Global,
    tokens: &mut Tokens<'_>,
    depth: usize,
) -> Result<Boxed<Formula>, Halt>
    ensures { Reads (reading.formula depth tokens.old) result tokens.new }
{
    if depth == 0 {
        return Err(Halt::Syntax);
    }
    let first = part(alloc, tokens, depth - 1)?;
    match tokens.operator() {
        Some(operator) => further(alloc, tokens, depth - 1, operator, first),
        None => Ok(first),
    }
}

/// part = NAME | "(" formula ")"
#[cycle(formula)]
#[tactic(auto, unfolding(crate::specs::Parsing::part))]
fn part(alloc: Global, tokens: &mut Tokens<'_>, depth: usize) -> Result<Boxed<Formula>, Halt>
    ensures { Reads (part (reading.formula depth) tokens.old) result tokens.new }
{
    if tokens.sees_name() {
        named(alloc, tokens)
    } else {
        enclosed(alloc, tokens, depth)
    }
}

/// NAME
fn named(alloc: Global, tokens: &mut Tokens<'_>) -> Result<Boxed<Formula>, Halt>
    ensures { Reads (reading.named tokens.old) result tokens.new }
{
    let token = tokens.expect_name()?;
    let name = token.name(alloc)?;
    Ok(Boxed::new(alloc, Formula::Name(name))?)
}

/// "(" formula ")"
#[cycle(formula)]
fn enclosed(alloc: Global, tokens: &mut Tokens<'_>, depth: usize) -> Result<Boxed<Formula>, Halt>
    ensures { Reads (enclosed (reading.formula depth) tokens.old) result tokens.new }
{
    let _open = tokens.expect_open()?;
    let inner = formula(alloc, tokens, depth)?;
    let _close = tokens.expect_close()?;
    Ok(inner)
}

/// operator part
#[cycle(formula)]
fn operand(
    alloc: Global,
    tokens: &mut Tokens<'_>,
    depth: usize,
    operator: Operator,
) -> Result<Boxed<Formula>, Halt>
    ensures { Reads (operand (reading.formula depth) operator tokens.old) result tokens.new }
{
    let _operator = tokens.expect_operator(operator)?;
    part(alloc, tokens, depth)
}

/// {operator part}, behind what is left of it.
#[cycle(formula)]
fn further(
    alloc: Global,
    tokens: &mut Tokens<'_>,
    depth: usize,
    operator: Operator,
    first: Boxed<Formula>,
) -> Result<Boxed<Formula>, Halt>
    ensures { Reads (further (reading.formula depth) operator first tokens.old) result tokens.new }
{
    let mut left = first;
    for _turn in 0..tokens.left() {
        if !tokens.sees_operator(operator) {
            return Ok(left);
        }
        let right = operand(alloc, tokens, depth, operator)?;
        left = Boxed::new(alloc, Formula::Join(operator, left, right))?;
    }
    Ok(left)
}
