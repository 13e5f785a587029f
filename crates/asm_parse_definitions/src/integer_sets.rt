//! Sets of integers, by which subsets of domains are defined: a function for each line of the
//! grammar.
ghost use Rattle.std.specs.Prelude.{◌≡◌};
ghost use Rattle.std.specs.Option.{option_map};
ghost use Rattle.asm_grammar.specs.Parser.{expect, sees};
ghost use Rattle.asm_syntax.specs.Forms.{is_range_sign};
ghost use Rattle.asm_parse_cursor.specs.Reads.{Reads, ReadsAs};
ghost use Rattle.asm_parse_theory.specs.Models as reading;
ghost use Rattle.asm_parse_definitions.specs.Sets.{equated_set, further_integers, integer_members};
ghost use Rattle.asm_parse_definitions.specs.Sets.{integer_set, last_integer, members_of};
ghost use Rattle.asm_parse_definitions.specs.Sets.{more_integers, next_integer, rest_of, rest_part};

use asm_parse_cursor::{GrammarRefusal, Tokens};
use asm_parse_domains::{identifier, int};
use asm_syntax::{DefTree, IntTree, List, Token};
use std::alloc::Global;

/// What follows the first integer of a set.
#[derive(Drop)]
pub(crate) enum Rest {
    /// The last integer of a range.
    To(IntTree),
    /// The other integers.
    And(List<IntTree>),
}

/// "domain" ID "=" "{" int ((".." | ":") int | {"," int}) "}"
#[tactic(auto, using(crate::proofs::Named::integers_is))]
pub(crate) fn integers(
    alloc: Global,
    tokens: &mut Tokens<'_>,
    depth: usize,
) -> Result<DefTree, GrammarRefusal>
    ensures { Reads (reading.integers depth tokens.old) result tokens.new }
{
    let before = tokens.rest();
    let _domain = tokens.expect_word("domain")?;
    let name = identifier(alloc, tokens)?;
    let (first, rest) = braced(alloc, tokens, depth)?;
    let span = tokens.span_since(before);
    match rest {
        None => Ok(DefTree::Integers(name, first, List::new(alloc), span)),
        Some(Rest::To(last)) => Ok(DefTree::Interval(name, first, last, span)),
        Some(Rest::And(others)) => Ok(DefTree::Integers(name, first, others, span)),
    }
}

/// "=" "{" int ((".." | ":") int | {"," int}) "}"
fn braced(
    alloc: Global,
    tokens: &mut Tokens<'_>,
    depth: usize,
) -> Result<(IntTree, Option<Rest>), GrammarRefusal>
    ensures { ReadsAs members_of (equated_set depth tokens.old) result tokens.new }
{
    let _equals = tokens.expect_sign("=")?;
    in_braces(alloc, tokens, depth)
}

/// "{" int ((".." | ":") int | {"," int}) "}"
fn in_braces(
    alloc: Global,
    tokens: &mut Tokens<'_>,
    depth: usize,
) -> Result<(IntTree, Option<Rest>), GrammarRefusal>
    ensures { ReadsAs members_of (integer_set depth tokens.old) result tokens.new }
{
    let _brace = tokens.enter_sign(depth > 0, "{")?;
    let inner = match members(alloc, tokens) {
        Ok(inner) => inner,
        Err(why) => return Err(why),
    };
    match tokens.expect_sign("}") {
        Ok(_end) => Ok(inner),
        Err(other) => Err(other),
    }
}

/// int ((".." | ":") int | {"," int})
#[tactic(auto, unfolding(crate::specs::Sets::integer_members))]
fn members(
    alloc: Global,
    tokens: &mut Tokens<'_>,
) -> Result<(IntTree, Option<Rest>), GrammarRefusal>
    ensures { ReadsAs members_of (integer_members tokens.old) result tokens.new }
{
    let first = int(alloc, tokens)?;
    let rest = maybe_rest(alloc, tokens)?;
    Ok((first, rest))
}

/// (".." | ":") int | {"," int}
fn maybe_rest(alloc: Global, tokens: &mut Tokens<'_>) -> Result<Option<Rest>, GrammarRefusal>
    ensures { ReadsAs (option_map rest_of) (rest_part tokens.old) result tokens.new }
{
    if sees_range_sign(tokens) {
        let last = last_integer(alloc, tokens)?;
        Ok(Some(Rest::To(last)))
    } else if tokens.sees_sign(",") {
        let others = more_integers(alloc, tokens)?;
        Ok(Some(Rest::And(others)))
    } else {
        Ok(None)
    }
}

/// Whether the next token is ".." or ":".
fn sees_range_sign(tokens: &Tokens<'_>) -> bool
    ensures { result ≡ sees is_range_sign tokens.now }
{
    tokens.sees_sign("..") || tokens.sees_sign(":")
}

/// (".." | ":") int
fn last_integer(alloc: Global, tokens: &mut Tokens<'_>) -> Result<IntTree, GrammarRefusal>
    ensures { Reads (last_integer tokens.old) result tokens.new }
{
    let _sign = range_sign(tokens)?;
    int(alloc, tokens)
}

/// ".." | ":"
fn range_sign<'a>(tokens: &mut Tokens<'a>) -> Result<&'a Token, GrammarRefusal>
    ensures { ReadsAs (λ t. t.now) (expect is_range_sign tokens.old) result tokens.new }
{
    if tokens.sees_sign("..") {
        tokens.expect_sign("..")
    } else {
        tokens.expect_sign(":")
    }
}

/// "," int {"," int}
fn more_integers(alloc: Global, tokens: &mut Tokens<'_>) -> Result<List<IntTree>, GrammarRefusal>
    ensures { Reads (more_integers tokens.old) result tokens.new }
{
    let first = next_integer(alloc, tokens)?;
    further_integers(alloc, tokens, List::only(alloc, first)?)
}

/// Those found, and each that follows them.
fn further_integers(
    alloc: Global,
    tokens: &mut Tokens<'_>,
    mut found: List<IntTree>,
) -> Result<List<IntTree>, GrammarRefusal>
    ensures { Reads (further_integers found tokens.old) result tokens.new }
{
    for _turn in 0..tokens.left() {
        if !tokens.sees_sign(",") {
            return Ok(found);
        }
        let one = match next_integer(alloc, tokens) {
            Ok(one) => one,
            Err(why) => return Err(why),
        };
        found.push(one)?;
    }
    Ok(found)
}

/// "," int
fn next_integer(alloc: Global, tokens: &mut Tokens<'_>) -> Result<IntTree, GrammarRefusal>
    ensures { Reads (next_integer tokens.old) result tokens.new }
{
    let _comma = tokens.expect_sign(",")?;
    int(alloc, tokens)
}
