//! Initial states: a function for each line of the grammar.
ghost use Rattle.asm_parse_cursor.specs.Reads.{Reads};
ghost use Rattle.asm_parse_theory.specs.Models as reading;
ghost use Rattle.asm_parse_definitions.specs.Lists.{more_starts};

use crate::equations::equation;
use asm_parse_cursor::{GrammarRefusal, Tokens};
use asm_parse_domains::identifier;
use asm_syntax::{InitTree, List, StartTree};
use std::alloc::Global;

/// init = "default" "init" ID ":" {"function" ID [params] "=" term}
#[tactic(auto, unfolding(asm_parse_theory::specs::Models::init))]
pub fn init(
    alloc: Global,
    tokens: &mut Tokens<'_>,
    depth: usize,
) -> Result<InitTree, GrammarRefusal>
    ensures { Reads (reading.init depth tokens.old) result tokens.new }
{
    let before = tokens.rest();
    let _default = tokens.expect_word("default")?;
    let _init = tokens.expect_word("init")?;
    let name = identifier(alloc, tokens)?;
    let _colon = tokens.expect_sign(":")?;
    let starts = starts(alloc, tokens, depth)?;
    let span = tokens.span_since(before);
    Ok(InitTree { name, starts, span })
}

/// {"function" ID [params] "=" term}
fn starts(
    alloc: Global,
    tokens: &mut Tokens<'_>,
    depth: usize,
) -> Result<List<StartTree>, GrammarRefusal>
    ensures { Reads (reading.starts depth tokens.old) result tokens.new }
{
    if !tokens.sees_word("function") {
        return Ok(List::new(alloc));
    }
    let first = start(alloc, tokens, depth)?;
    more_starts(alloc, tokens, depth, List::only(alloc, first)?)
}

/// Those found, and each that follows them.
fn more_starts(
    alloc: Global,
    tokens: &mut Tokens<'_>,
    depth: usize,
    mut found: List<StartTree>,
) -> Result<List<StartTree>, GrammarRefusal>
    ensures { Reads (more_starts depth found tokens.old) result tokens.new }
{
    for _turn in 0..tokens.left() {
        if !tokens.sees_word("function") {
            return Ok(found);
        }
        let one = match start(alloc, tokens, depth) {
            Ok(one) => one,
            Err(why) => return Err(why),
        };
        found.push(one)?;
    }
    Ok(found)
}

/// "function" ID [params] "=" term
#[tactic(auto, unfolding(asm_parse_theory::specs::Models::start))]
fn start(alloc: Global, tokens: &mut Tokens<'_>, depth: usize) -> Result<StartTree, GrammarRefusal>
    ensures { Reads (reading.start depth tokens.old) result tokens.new }
{
    let (function, (params, term)) = equation(alloc, tokens, depth)?;
    Ok(StartTree {
        function,
        params,
        term,
    })
}
