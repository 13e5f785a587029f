//! Declarations: a function for each line of the grammar.
ghost use Rattle.std.specs.Prelude.{◌≡◌, drop};
ghost use Rattle.asm_grammar.specs.Parser.{sees};
ghost use Rattle.asm_parse_cursor.specs.Reads.{Reads};
ghost use Rattle.asm_parse_theory.specs.Firsts.{among, first_decl, starts_decl};
ghost use Rattle.asm_parse_theory.specs.Forms.{many};
ghost use Rattle.asm_parse_theory.specs.Models as reading;
ghost use Rattle.asm_parse_definitions.specs.Lists.{equated_literals, more_decls, more_literals};

use asm_parse_cursor::{GrammarRefusal, Tokens};
use asm_parse_domains::{domain, identifier, maybe_word};
use asm_syntax::{Boxed, DeclTree, DomainTree, List, Token};
use std::alloc::Global;

/// The domain of a function; where there are two, those of its arguments and of its value.
type Domains = (Boxed<DomainTree>, Option<Boxed<DomainTree>>);

/// Whether a declaration begins with the next token.
fn starts_decl(tokens: &Tokens<'_>) -> bool
    ensures { result ≡ sees starts_decl tokens.now }
{
    tokens.sees_word("enum")
        || tokens.sees_word("domain")
        || tokens.sees_word("static")
        || tokens.sees_word("derived")
        || starts_changing(tokens)
}

/// Whether the next token is one of the other words with which a declaration begins.
fn starts_changing(tokens: &Tokens<'_>) -> bool
    ensures { result ≡ sees (among (drop 4 first_decl)) tokens.now }
{
    tokens.sees_word("dynamic")
        || tokens.sees_word("abstract")
        || tokens.sees_word("controlled")
        || tokens.sees_word("monitored")
        || tokens.sees_word("shared")
        || tokens.sees_word("out")
}

/// {decl}, with declarations in which at most so many constructs are open at once.
pub fn decls(
    alloc: Global,
    tokens: &mut Tokens<'_>,
    depth: usize,
) -> Result<List<DeclTree>, GrammarRefusal>
    ensures { Reads (many starts_decl (reading.decl depth) tokens.old) result tokens.new }
{
    if !starts_decl(tokens) {
        return Ok(List::new(alloc));
    }
    let first = decl(alloc, tokens, depth)?;
    more_decls(alloc, tokens, depth, List::only(alloc, first)?)
}

/// Those found, and each that follows them.
fn more_decls(
    alloc: Global,
    tokens: &mut Tokens<'_>,
    depth: usize,
    mut found: List<DeclTree>,
) -> Result<List<DeclTree>, GrammarRefusal>
    ensures { Reads (more_decls depth found tokens.old) result tokens.new }
{
    for _turn in 0..tokens.left() {
        if !starts_decl(tokens) {
            return Ok(found);
        }
        let one = match decl(alloc, tokens, depth) {
            Ok(one) => one,
            Err(why) => return Err(why),
        };
        found.push(one)?;
    }
    Ok(found)
}

/// decl
#[tactic(auto, unfolding(asm_parse_theory::specs::Models::decl))]
fn decl(alloc: Global, tokens: &mut Tokens<'_>, depth: usize) -> Result<DeclTree, GrammarRefusal>
    ensures { Reads (reading.decl depth tokens.old) result tokens.new }
{
    if tokens.sees_word("enum") {
        enumeration(alloc, tokens, depth)
    } else if tokens.sees_word("domain") {
        subset(alloc, tokens, depth)
    } else if tokens.sees_one(&[], &["static", "derived"]) {
        defined(alloc, tokens, depth)
    } else {
        changing(alloc, tokens, depth)
    }
}

/// "enum" "domain" ID "=" "{" ID {("|" | ",") ID} "}"
#[tactic(auto, using(crate::proofs::Named::enum_is))]
fn enumeration(
    alloc: Global,
    tokens: &mut Tokens<'_>,
    depth: usize,
) -> Result<DeclTree, GrammarRefusal>
    ensures { Reads (reading.enum depth tokens.old) result tokens.new }
{
    let before = tokens.rest();
    let _enum = tokens.expect_word("enum")?;
    let _domain = tokens.expect_word("domain")?;
    let name = identifier(alloc, tokens)?;
    let (first, others) = braced(alloc, tokens, depth)?;
    Ok(DeclTree::Enum(name, first, others, tokens.span_since(before)))
}

/// "=" "{" ID {("|" | ",") ID} "}"
fn braced(
    alloc: Global,
    tokens: &mut Tokens<'_>,
    depth: usize,
) -> Result<(Token, List<Token>), GrammarRefusal>
    ensures { Reads (equated_literals depth tokens.old) result tokens.new }
{
    let _equals = tokens.expect_sign("=")?;
    in_braces(alloc, tokens, depth)
}

/// "{" ID {("|" | ",") ID} "}"
fn in_braces(
    alloc: Global,
    tokens: &mut Tokens<'_>,
    depth: usize,
) -> Result<(Token, List<Token>), GrammarRefusal>
    ensures { Reads (reading.literal_set depth tokens.old) result tokens.new }
{
    let _brace = tokens.enter_sign(depth > 0, "{")?;
    let inner = match literals(alloc, tokens, depth) {
        Ok(inner) => inner,
        Err(why) => return Err(why),
    };
    match tokens.expect_sign("}") {
        Ok(_end) => Ok(inner),
        Err(other) => Err(other),
    }
}

/// ID {("|" | ",") ID}
#[tactic(auto, unfolding(asm_parse_theory::specs::Models::literals))]
fn literals(
    alloc: Global,
    tokens: &mut Tokens<'_>,
    depth: usize,
) -> Result<(Token, List<Token>), GrammarRefusal>
    ensures { Reads (reading.literals depth tokens.old) result tokens.new }
{
    let first = identifier(alloc, tokens)?;
    let others = more_literals(alloc, tokens)?;
    Ok((first, others))
}

/// {("|" | ",") ID}
fn more_literals(alloc: Global, tokens: &mut Tokens<'_>) -> Result<List<Token>, GrammarRefusal>
    ensures { Reads (reading.other_literals tokens.old) result tokens.new }
{
    if !tokens.sees_one(&["|", ","], &[]) {
        return Ok(List::new(alloc));
    }
    let first = next_literal(alloc, tokens)?;
    further_literals(alloc, tokens, List::only(alloc, first)?)
}

/// Those found, and each that follows them.
fn further_literals(
    alloc: Global,
    tokens: &mut Tokens<'_>,
    mut found: List<Token>,
) -> Result<List<Token>, GrammarRefusal>
    ensures { Reads (more_literals found tokens.old) result tokens.new }
{
    for _turn in 0..tokens.left() {
        if !tokens.sees_one(&["|", ","], &[]) {
            return Ok(found);
        }
        let one = match next_literal(alloc, tokens) {
            Ok(one) => one,
            Err(why) => return Err(why),
        };
        found.push(one)?;
    }
    Ok(found)
}

/// ("|" | ",") ID
fn next_literal(alloc: Global, tokens: &mut Tokens<'_>) -> Result<Token, GrammarRefusal>
    ensures { Reads (reading.next_literal tokens.old) result tokens.new }
{
    let _separator = tokens.expect_one(&["|", ","], &[])?;
    identifier(alloc, tokens)
}

/// "domain" ID "subsetof" ("Integer" | "Natural")
#[tactic(auto, unfolding(asm_parse_theory::specs::Models::subset))]
fn subset(alloc: Global, tokens: &mut Tokens<'_>, depth: usize) -> Result<DeclTree, GrammarRefusal>
    ensures { Reads (reading.subset depth tokens.old) result tokens.new }
{
    let before = tokens.rest();
    let _domain = tokens.expect_word("domain")?;
    let name = identifier(alloc, tokens)?;
    let _subsetof = tokens.expect_word("subsetof")?;
    let base = tokens.expect_one(&[], &["Integer", "Natural"])?;
    let base = base.text(alloc)?;
    Ok(DeclTree::Subset(name, base, tokens.span_since(before)))
}

/// ID ":" domain ["->" domain]
#[tactic(auto, unfolding(asm_parse_theory::specs::Models::typed))]
fn typed(
    alloc: Global,
    tokens: &mut Tokens<'_>,
    depth: usize,
) -> Result<(Token, Domains), GrammarRefusal>
    ensures { Reads (reading.typed depth tokens.old) result tokens.new }
{
    let name = identifier(alloc, tokens)?;
    let _colon = tokens.expect_sign(":")?;
    let domains = one_or_two(alloc, tokens, depth)?;
    Ok((name, domains))
}

/// domain ["->" domain]
fn one_or_two(
    alloc: Global,
    tokens: &mut Tokens<'_>,
    depth: usize,
) -> Result<Domains, GrammarRefusal>
    ensures { Reads (reading.domains_part depth tokens.old) result tokens.new }
{
    let first = domain(alloc, tokens, depth)?;
    let next = maybe_value(alloc, tokens, depth)?;
    Ok((first, next))
}

/// ["->" domain]
fn maybe_value(
    alloc: Global,
    tokens: &mut Tokens<'_>,
    depth: usize,
) -> Result<Option<Boxed<DomainTree>>, GrammarRefusal>
    ensures { Reads (reading.value_part depth tokens.old) result tokens.new }
{
    if !tokens.sees_sign("->") {
        return Ok(None);
    }
    let _arrow = tokens.expect_sign("->")?;
    let value = domain(alloc, tokens, depth)?;
    Ok(Some(value))
}

/// ("static" | "derived") ID ":" domain ["->" domain]
#[tactic(auto, unfolding(asm_parse_theory::specs::Models::defined))]
fn defined(alloc: Global, tokens: &mut Tokens<'_>, depth: usize) -> Result<DeclTree, GrammarRefusal>
    ensures { Reads (reading.defined depth tokens.old) result tokens.new }
{
    let before = tokens.rest();
    let kind = tokens.expect_one(&[], &["static", "derived"])?;
    let kind = kind.text(alloc)?;
    let (name, (first, next)) = typed(alloc, tokens, depth)?;
    Ok(DeclTree::Defined(kind, name, first, next, tokens.span_since(before)))
}

/// ["dynamic"] "abstract" "domain" ID, and
/// ["dynamic"] ("controlled" | "monitored" | "shared" | "out") ID ":" domain ["->" domain]
#[tactic(auto, unfolding(asm_parse_theory::specs::Models::changing, asm_parse_theory::specs::Models::changes))]
fn changing(
    alloc: Global,
    tokens: &mut Tokens<'_>,
    depth: usize,
) -> Result<DeclTree, GrammarRefusal>
    ensures { Reads (reading.changing depth tokens.old) result tokens.new }
{
    let before = tokens.rest();
    let _dynamic = maybe_word(tokens, "dynamic")?;
    if tokens.sees_word("abstract") {
        let name = members(alloc, tokens)?;
        Ok(DeclTree::Abstract(name, tokens.span_since(before)))
    } else {
        let kind = tokens.expect_one(&[], &["controlled", "monitored", "shared", "out"])?;
        let kind = kind.text(alloc)?;
        let (name, (first, next)) = typed(alloc, tokens, depth)?;
        Ok(DeclTree::Dynamic(kind, name, first, next, tokens.span_since(before)))
    }
}

/// "abstract" "domain" ID
fn members(alloc: Global, tokens: &mut Tokens<'_>) -> Result<Token, GrammarRefusal>
    ensures { Reads (reading.abstract_part tokens.old) result tokens.new }
{
    let _abstract = tokens.expect_word("abstract")?;
    let _domain = tokens.expect_word("domain")?;
    identifier(alloc, tokens)
}
