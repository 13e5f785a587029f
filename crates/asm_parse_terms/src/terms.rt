//! Terms, and the lists of terms that are in rules.
ghost use Rattle.asm_grammar.specs.Parser.{mapped};
ghost use Rattle.asm_syntax.specs.Terms.{terms_of};
ghost use Rattle.asm_parse_cursor.specs.Reads.{Reads};
ghost use Rattle.asm_parse_theory.specs.Forms.{listed};
ghost use Rattle.asm_parse_theory.specs.Terms as reading;
ghost use Rattle.asm_parse_theory.specs.Terms.{within};
ghost use Rattle.asm_parse_parts.specs.Lines.{line_of};

use crate::lines::Lines;
use asm_parse_cursor::{GrammarRefusal, Tokens};
use asm_parse_parts::{Grammar, Level, Line};
use asm_parse_prims::Prims;
use asm_syntax::{BindsTree, Boxed, TermTree, TermsTree};
use std::alloc::Global;

/// A term in which at most `depth` constructs are open at once. On a refusal the tokens left begin
/// with the one that is refused.
#[tactic(auto, unfolding(asm_parse_theory::specs::Terms::term))]
pub fn term(
    alloc: Global,
    tokens: &mut Tokens<'_>,
    depth: usize,
) -> Result<Boxed<TermTree>, GrammarRefusal>
    ensures { Reads (reading.term depth tokens.old) result tokens.new }
{
    line(alloc, tokens, depth, Line::Term)
}

/// "(" term {"," term} ")", in which at most `depth` constructs are open at once; the parentheses
/// are one. On a refusal the tokens left begin with the one that is refused.
pub fn call(
    alloc: Global,
    tokens: &mut Tokens<'_>,
    depth: usize,
) -> Result<TermsTree, GrammarRefusal>
    ensures { Reads (within depth reading.call tokens.old) result tokens.new }
{
    let at = Grammar { alloc, depth, line };
    Prims { at }.call(tokens)
}

/// term {"," term}, with terms in which at most `depth` constructs are open at once. On a refusal
/// the tokens left begin with the one that is refused.
pub fn arguments(
    alloc: Global,
    tokens: &mut Tokens<'_>,
    depth: usize,
) -> Result<TermsTree, GrammarRefusal>
    ensures { Reads (mapped terms_of (listed (reading.term depth)) tokens.old) result tokens.new }
{
    Level { alloc, depth, line }.arguments(tokens)
}

/// binds = "(" VAR "=" term {"," VAR "=" term} ")", in which at most `depth` constructs are open at
/// once; the parentheses are one. On a refusal the tokens left begin with the one that is refused.
pub fn binds(
    alloc: Global,
    tokens: &mut Tokens<'_>,
    depth: usize,
) -> Result<BindsTree, GrammarRefusal>
    ensures { Reads (within depth reading.binds tokens.old) result tokens.new }
{
    Grammar { alloc, depth, line }.binds(tokens)
}

/// A line in which at most so many constructs are open at once.
fn line(
    alloc: Global,
    tokens: &mut Tokens<'_>,
    depth: usize,
    which: Line,
) -> Result<Boxed<TermTree>, GrammarRefusal>
    ensures { Reads (reading.line depth (line_of which) tokens.old) result tokens.new }
{
    let at = Grammar { alloc, depth, line };
    Lines { at }.form(tokens, which)
}
