//! Imports: a function for each line of the grammar.
ghost use Rattle.asm_parse_cursor.specs.Reads.{Reads, ReadsAs};
ghost use Rattle.asm_parse_theory.specs.Models as reading;
ghost use Rattle.asm_parse.specs.Lists.{further_parts, more_imports};

use asm_parse_cursor::{GrammarRefusal, Tokens};
use asm_syntax::{List, Token};
use std::alloc::Global;

/// The first part of an import, and those after it.
pub(crate) type Import = (Token, List<Token>);

/// {"import" part {"/" part}}
pub(crate) fn imports(
    alloc: Global,
    tokens: &mut Tokens<'_>,
) -> Result<List<Import>, GrammarRefusal>
    ensures { Reads (reading.imports tokens.old) result tokens.new }
{
    if !tokens.sees_word("import") {
        return Ok(List::new(alloc));
    }
    let first = imported(alloc, tokens)?;
    more_imports(alloc, tokens, List::only(alloc, first)?)
}

/// Those found, and each that follows them.
fn more_imports(
    alloc: Global,
    tokens: &mut Tokens<'_>,
    mut found: List<Import>,
) -> Result<List<Import>, GrammarRefusal>
    ensures { Reads (more_imports found tokens.old) result tokens.new }
{
    for _turn in 0..tokens.left() {
        if !tokens.sees_word("import") {
            return Ok(found);
        }
        let one = match imported(alloc, tokens) {
            Ok(one) => one,
            Err(why) => return Err(why),
        };
        found.push(one)?;
    }
    Ok(found)
}

/// "import" part {"/" part}
#[tactic(auto, unfolding(asm_parse_theory::specs::Models::imported))]
fn imported(alloc: Global, tokens: &mut Tokens<'_>) -> Result<Import, GrammarRefusal>
    ensures { Reads (reading.imported tokens.old) result tokens.new }
{
    let _import = tokens.expect_word("import")?;
    parts(alloc, tokens)
}

/// part {"/" part}
#[tactic(auto, unfolding(asm_parse_theory::specs::Models::parts))]
pub(crate) fn parts(alloc: Global, tokens: &mut Tokens<'_>) -> Result<Import, GrammarRefusal>
    ensures { Reads (reading.parts tokens.old) result tokens.new }
{
    let first = part(alloc, tokens)?;
    let others = more_parts(alloc, tokens)?;
    Ok((first, others))
}

/// {"/" part}
fn more_parts(alloc: Global, tokens: &mut Tokens<'_>) -> Result<List<Token>, GrammarRefusal>
    ensures { Reads (reading.other_parts tokens.old) result tokens.new }
{
    if !tokens.sees_sign("/") {
        return Ok(List::new(alloc));
    }
    let first = next_part(alloc, tokens)?;
    further_parts(alloc, tokens, List::only(alloc, first)?)
}

/// Those found, and each that follows them.
fn further_parts(
    alloc: Global,
    tokens: &mut Tokens<'_>,
    mut found: List<Token>,
) -> Result<List<Token>, GrammarRefusal>
    ensures { Reads (further_parts found tokens.old) result tokens.new }
{
    for _turn in 0..tokens.left() {
        if !tokens.sees_sign("/") {
            return Ok(found);
        }
        let one = match next_part(alloc, tokens) {
            Ok(one) => one,
            Err(why) => return Err(why),
        };
        found.push(one)?;
    }
    Ok(found)
}

/// "/" part
fn next_part(alloc: Global, tokens: &mut Tokens<'_>) -> Result<Token, GrammarRefusal>
    ensures { Reads (reading.next_part tokens.old) result tokens.new }
{
    let _slash = tokens.expect_sign("/")?;
    part(alloc, tokens)
}

/// part = "." | ".." | ID
fn part(alloc: Global, tokens: &mut Tokens<'_>) -> Result<Token, GrammarRefusal>
    ensures { Reads (reading.part tokens.old) result tokens.new }
{
    let token = part_token(tokens)?;
    Ok(token.copy(alloc)?)
}

/// "." | ".." | ID
fn part_token<'a>(tokens: &mut Tokens<'a>) -> Result<&'a Token, GrammarRefusal>
    ensures { ReadsAs (λ t. t.now) (reading.part tokens.old) result tokens.new }
{
    if tokens.sees_sign(".") {
        tokens.expect_sign(".")
    } else if tokens.sees_sign("..") {
        tokens.expect_sign("..")
    } else {
        tokens.expect_id()
    }
}
