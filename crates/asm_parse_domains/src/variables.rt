//! Variables with their domains, and integers: a function for each line of the grammar.
ghost use Rattle.std.specs.Prelude.{◌<◌, ◌-◌};
ghost use Rattle.asm_parse_cursor.specs.Reads.{Reads};
ghost use Rattle.asm_parse_theory.specs.Forms.{after_comma, many_listed, further_listed, listed};
ghost use Rattle.asm_parse_theory.specs.Domains as reading;
ghost use Rattle.asm_parse_domains.specs.Enclosed.{enclosed_ranges};

use crate::domains::{domain, open_parenthesis};
use asm_parse_cursor::{GrammarRefusal, Tokens};
use asm_syntax::{IntTree, List, ParamsTree, RangeTree, RangesTree};
use std::alloc::Global;

/// ranges = VAR "in" domain {"," VAR "in" domain}, with domains in which at most `depth` constructs are
/// open at once. On a refusal the tokens left begin with the one that is refused.
#[tactic(auto, unfolding(asm_parse_theory::specs::Domains::ranges))]
pub fn ranges(
    alloc: Global,
    tokens: &mut Tokens<'_>,
    depth: usize,
) -> Result<RangesTree, GrammarRefusal>
    ensures { Reads (reading.ranges (reading.domain depth) tokens.old) result tokens.new }
{
    let before = tokens.rest();
    let (first, others) = range_list(alloc, tokens, depth)?;
    let span = tokens.span_since(before);
    Ok(RangesTree {
        first,
        others,
        span,
    })
}

/// params = "(" ranges ")", in which at most `depth` constructs are open at once; the parentheses are
/// one. On a refusal the tokens left begin with the one that is refused.
#[tactic(auto, unfolding(asm_parse_theory::specs::Domains::params))]
pub fn params(
    alloc: Global,
    tokens: &mut Tokens<'_>,
    depth: usize,
) -> Result<ParamsTree, GrammarRefusal>
    ensures { Reads (reading.params depth tokens.old) result tokens.new }
{
    let before = tokens.rest();
    let ranges = enclosed_ranges(alloc, tokens, depth)?;
    let span = tokens.span_since(before);
    Ok(ParamsTree { ranges, span })
}

/// "(" ranges ")"
fn enclosed_ranges(
    alloc: Global,
    tokens: &mut Tokens<'_>,
    depth: usize,
) -> Result<RangesTree, GrammarRefusal>
    ensures { Reads (enclosed_ranges depth tokens.old) result tokens.new }
{
    let _open = open_parenthesis(tokens, depth)?;
    let ranges = inner_ranges(alloc, tokens, depth)?;
    let _close = tokens.expect_sign(")")?;
    Ok(ranges)
}

/// int = ["-"] NUMBER. On a refusal the tokens left begin with the one that is refused.
#[tactic(auto, unfolding(asm_parse_theory::specs::Domains::int))]
pub fn int(alloc: Global, tokens: &mut Tokens<'_>) -> Result<IntTree, GrammarRefusal>
    ensures { Reads (reading.int tokens.old) result tokens.new }
{
    let before = tokens.rest();
    if tokens.sees_sign("-") {
        let _minus = tokens.expect_sign("-")?;
        let number = tokens.expect_number()?;
        let span = tokens.span_since(before);
        let number = number.copy(alloc)?;
        Ok(IntTree {
            is_negative: true,
            number,
            span,
        })
    } else {
        let number = tokens.expect_number()?;
        let span = tokens.span_since(before);
        let number = number.copy(alloc)?;
        Ok(IntTree {
            is_negative: false,
            number,
            span,
        })
    }
}

/// VAR "in" domain
#[tactic(auto, unfolding(asm_parse_theory::specs::Domains::range))]
fn range(alloc: Global, tokens: &mut Tokens<'_>, depth: usize) -> Result<RangeTree, GrammarRefusal>
    ensures { Reads (reading.range (reading.domain depth) tokens.old) result tokens.new }
{
    let variable = tokens.expect_variable()?;
    let _in = tokens.expect_word("in")?;
    let domain = domain(alloc, tokens, depth)?;
    let variable = variable.copy(alloc)?;
    Ok(RangeTree { variable, domain })
}

/// "," VAR "in" domain
fn next_range(
    alloc: Global,
    tokens: &mut Tokens<'_>,
    depth: usize,
) -> Result<RangeTree, GrammarRefusal>
    ensures { Reads (after_comma (reading.range (reading.domain depth)) tokens.old) result tokens.new }
{
    let _comma = tokens.expect_sign(",")?;
    range(alloc, tokens, depth)
}

/// {"," VAR "in" domain}
fn other_ranges(
    alloc: Global,
    tokens: &mut Tokens<'_>,
    depth: usize,
) -> Result<List<RangeTree>, GrammarRefusal>
    ensures { Reads (many_listed (reading.range (reading.domain depth)) tokens.old) result tokens.new }
{
    if !tokens.sees_sign(",") {
        return Ok(List::new(alloc));
    }
    let first = next_range(alloc, tokens, depth)?;
    more_ranges(alloc, tokens, depth, List::only(alloc, first)?)
}

/// The ranges found, and each that follows them.
fn more_ranges(
    alloc: Global,
    tokens: &mut Tokens<'_>,
    depth: usize,
    mut found: List<RangeTree>,
) -> Result<List<RangeTree>, GrammarRefusal>
    ensures { Reads (further_listed (reading.range (reading.domain depth)) found tokens.old) result tokens.new }
{
    for _turn in 0..tokens.left() {
        if !tokens.sees_sign(",") {
            return Ok(found);
        }
        let range = next_range(alloc, tokens, depth)?;
        found.push(range)?;
    }
    Ok(found)
}

/// VAR "in" domain {"," VAR "in" domain}
fn range_list(
    alloc: Global,
    tokens: &mut Tokens<'_>,
    depth: usize,
) -> Result<(RangeTree, List<RangeTree>), GrammarRefusal>
    ensures { Reads (listed (reading.range (reading.domain depth)) tokens.old) result tokens.new }
{
    let first = range(alloc, tokens, depth)?;
    let others = other_ranges(alloc, tokens, depth)?;
    Ok((first, others))
}

/// Ranges inside a construct that was opened.
fn inner_ranges(
    alloc: Global,
    tokens: &mut Tokens<'_>,
    depth: usize,
) -> Result<RangesTree, GrammarRefusal>
    requires open { 0 < depth }
    ensures { Reads (reading.ranges (reading.inside depth) tokens.old) result tokens.new }
{
    ranges(alloc, tokens, depth - 1)
}
