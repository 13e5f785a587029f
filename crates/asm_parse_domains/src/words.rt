//! Single tokens that trees keep, and lists of them. On a refusal the tokens left begin with the one
//! that is refused.
ghost use Rattle.std.specs.Prelude.{◌≡◌};
ghost use Rattle.asm_grammar.specs.Parser.{expect, optional};
ghost use Rattle.asm_syntax.specs.Marks.{is, id, variable};
ghost use Rattle.asm_parse_cursor.specs.Reads.{Reads, LendsMaybe};
ghost use Rattle.asm_parse_theory.specs.Forms.{after_comma, further_listed, listed, many_listed};
ghost use Rattle.asm_parse_theory.specs.Forms.{maybe_quoted};
ghost use Rattle.asm_parse_domains.specs.Names.{name};

use asm_parse_cursor::{GrammarRefusal, Tokens};
use asm_syntax::{List, Token};
use std::alloc::Global;

/// ID: a name, in memory of its own.
pub fn identifier(alloc: Global, tokens: &mut Tokens<'_>) -> Result<Token, GrammarRefusal>
    ensures { Reads (expect (is id) tokens.old) result tokens.new }
{
    let token = tokens.expect_id()?;
    Ok(token.copy(alloc)?)
}

/// [ID]: a name, or nothing where the next token is no name.
pub fn maybe_identifier(
    alloc: Global,
    tokens: &mut Tokens<'_>,
) -> Result<Option<Token>, GrammarRefusal>
    ensures { Reads (optional (is id) (expect (is id)) tokens.old) result tokens.new }
{
    if !tokens.sees_id() {
        return Ok(None);
    }
    let token = identifier(alloc, tokens)?;
    Ok(Some(token))
}

/// VAR: a variable, in memory of its own.
pub fn variable(alloc: Global, tokens: &mut Tokens<'_>) -> Result<Token, GrammarRefusal>
    ensures { Reads (expect (is variable) tokens.old) result tokens.new }
{
    let token = tokens.expect_variable()?;
    Ok(token.copy(alloc)?)
}

/// This quoted word as it is lent, or nothing where the next token is another.
pub fn maybe_word<'a>(
    tokens: &mut Tokens<'a>,
    word: &str,
) -> Result<Option<&'a Token>, GrammarRefusal>
    ensures { LendsMaybe (maybe_quoted word.now tokens.old) result tokens.new }
{
    if !tokens.sees_word(word) {
        return Ok(None);
    }
    let token = tokens.expect_word(word)?;
    Ok(Some(token))
}

/// ID {"," ID}: the first name and the others, in text order.
#[tactic(auto, unfolding(crate::specs::Names::name))]
pub fn identifiers(
    alloc: Global,
    tokens: &mut Tokens<'_>,
) -> Result<(Token, List<Token>), GrammarRefusal>
    ensures { Reads (listed (expect (is id)) tokens.old) result tokens.new }
{
    let first = identifier(alloc, tokens)?;
    let others = more_identifiers(alloc, tokens)?;
    Ok((first, others))
}

/// {"," ID}
fn more_identifiers(alloc: Global, tokens: &mut Tokens<'_>) -> Result<List<Token>, GrammarRefusal>
    ensures { Reads (many_listed name tokens.old) result tokens.new }
{
    if !tokens.sees_sign(",") {
        return Ok(List::new(alloc));
    }
    let first = next_identifier(alloc, tokens)?;
    further_identifiers(alloc, tokens, List::only(alloc, first)?)
}

/// Those found, and each that follows them.
fn further_identifiers(
    alloc: Global,
    tokens: &mut Tokens<'_>,
    mut found: List<Token>,
) -> Result<List<Token>, GrammarRefusal>
    ensures { Reads (further_listed name found tokens.old) result tokens.new }
{
    for _turn in 0..tokens.left() {
        if !tokens.sees_sign(",") {
            return Ok(found);
        }
        let name = next_identifier(alloc, tokens)?;
        found.push(name)?;
    }
    Ok(found)
}

/// "," ID
#[tactic(auto, unfolding(crate::specs::Names::name))]
fn next_identifier(alloc: Global, tokens: &mut Tokens<'_>) -> Result<Token, GrammarRefusal>
    ensures { Reads (after_comma name tokens.old) result tokens.new }
{
    let _comma = tokens.expect_sign(",")?;
    identifier(alloc, tokens)
}
