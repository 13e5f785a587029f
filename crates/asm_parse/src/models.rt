//! Models: a function for each line of the grammar.
ghost use Rattle.std.specs.Prelude.{codes};
ghost use Rattle.asm_grammar.specs.Parser.{mapped};
ghost use Rattle.asm_syntax.specs.Forms.{second};
ghost use Rattle.asm_parse_cursor.specs.Reads.{Reads};
ghost use Rattle.asm_parse_theory.specs.Forms.{quoted};
ghost use Rattle.asm_parse_theory.specs.Models as reading;
ghost use Rattle.asm_parse_theory.specs.Rules as rules;
ghost use Rattle.asm_parse_definitions.specs.Lists.{all_defs};

use crate::imports::{Import, imports};
use asm_parse_cursor::{GrammarRefusal, Tokens};
use asm_parse_definitions::{Defs, decls, init};
use asm_parse_domains::identifier;
use asm_parse_rules::rule;
use asm_syntax::{Boxed, DeclTree, DefTree, InitTree, List, ModelTree, RuleTree, Token};
use std::alloc::Global;

/// The word `main`, the main rule's name, the rule and the initial state.
type Main = (Token, (Token, (Boxed<RuleTree>, Option<InitTree>)));

/// The definitions and the main rule.
type Rules = (List<DefTree>, Main);

/// "main"
fn main_word(alloc: Global, tokens: &mut Tokens<'_>) -> Result<Token, GrammarRefusal>
    ensures { Reads (quoted (codes "main") tokens.old) result tokens.new }
{
    let main = tokens.expect_word("main")?;
    Ok(main.copy(alloc)?)
}

/// "main" "rule" ID "=" rule [init]
#[tactic(auto, unfolding(asm_parse_theory::specs::Models::main))]
fn main_rule(alloc: Global, tokens: &mut Tokens<'_>, depth: usize) -> Result<Main, GrammarRefusal>
    ensures { Reads (reading.main depth tokens.old) result tokens.new }
{
    let main = main_word(alloc, tokens)?;
    let _rule = tokens.expect_word("rule")?;
    let name = identifier(alloc, tokens)?;
    let _equals = tokens.expect_sign("=")?;
    let rest = rule_and_init(alloc, tokens, depth)?;
    Ok((main, (name, rest)))
}

/// rule [init]
fn rule_and_init(
    alloc: Global,
    tokens: &mut Tokens<'_>,
    depth: usize,
) -> Result<(Boxed<RuleTree>, Option<InitTree>), GrammarRefusal>
    ensures { Reads (reading.main_body depth tokens.old) result tokens.new }
{
    let rule = rule(alloc, tokens, depth)?;
    let init = maybe_init(alloc, tokens, depth)?;
    Ok((rule, init))
}

/// [init]
fn maybe_init(
    alloc: Global,
    tokens: &mut Tokens<'_>,
    depth: usize,
) -> Result<Option<InitTree>, GrammarRefusal>
    ensures { Reads (reading.init_part depth tokens.old) result tokens.new }
{
    if !tokens.sees_word("default") {
        return Ok(None);
    }
    let init = init(alloc, tokens, depth)?;
    Ok(Some(init))
}

/// rule
fn read_rule(
    alloc: Global,
    tokens: &mut Tokens<'_>,
    depth: usize,
) -> Result<Boxed<RuleTree>, GrammarRefusal>
    ensures { Reads (rules.rule depth tokens.old) result tokens.new }
{
    rule(alloc, tokens, depth)
}

/// {def}
fn all_defs(
    alloc: Global,
    tokens: &mut Tokens<'_>,
    depth: usize,
) -> Result<List<DefTree>, GrammarRefusal>
    ensures { Reads (all_defs depth tokens.old) result tokens.new }
{
    Defs {
        alloc,
        depth,
        rule: read_rule,
    }
    .defs(tokens)
}

/// "definitions" ":" {def} main
#[tactic(auto, unfolding(asm_parse_theory::specs::Models::definitions))]
fn definitions(
    alloc: Global,
    tokens: &mut Tokens<'_>,
    depth: usize,
) -> Result<Rules, GrammarRefusal>
    ensures { Reads (reading.definitions depth tokens.old) result tokens.new }
{
    let _definitions = tokens.expect_word("definitions")?;
    let _colon = tokens.expect_sign(":")?;
    let defs = all_defs(alloc, tokens, depth)?;
    let main = main_rule(alloc, tokens, depth)?;
    Ok((defs, main))
}

/// "signature" ":" {decl} "definitions" ":" {def} main
#[tactic(auto, unfolding(asm_parse_theory::specs::Models::signature))]
fn signature(
    alloc: Global,
    tokens: &mut Tokens<'_>,
    depth: usize,
) -> Result<(List<DeclTree>, Rules), GrammarRefusal>
    ensures { Reads (reading.signature depth tokens.old) result tokens.new }
{
    let _signature = tokens.expect_word("signature")?;
    let _colon = tokens.expect_sign(":")?;
    let decls = decls(alloc, tokens, depth)?;
    let rest = definitions(alloc, tokens, depth)?;
    Ok((decls, rest))
}

/// {import} and what follows them
fn after_title(
    alloc: Global,
    tokens: &mut Tokens<'_>,
    depth: usize,
) -> Result<(List<Import>, (List<DeclTree>, Rules)), GrammarRefusal>
    ensures { Reads (reading.after_title depth tokens.old) result tokens.new }
{
    let imports = imports(alloc, tokens)?;
    let rest = signature(alloc, tokens, depth)?;
    Ok((imports, rest))
}

/// model = "asm" ID {import} "signature" ":" {decl} "definitions" ":" {def}
///     "main" "rule" ID "=" rule [init]
///
/// and the imports, which the tree doesn't keep. At most so many constructs are open at once.
#[tactic(auto, unfolding(asm_parse_theory::specs::Models::model))]
fn model(
    alloc: Global,
    tokens: &mut Tokens<'_>,
    depth: usize,
) -> Result<(List<Import>, ModelTree), GrammarRefusal>
    ensures { Reads (reading.model depth tokens.old) result tokens.new }
{
    let before = tokens.rest();
    let _asm = tokens.expect_word("asm")?;
    let name = identifier(alloc, tokens)?;
    let (imports, (decls, (defs, (main, (rule_name, (rule, init)))))) = after_title(
        alloc, tokens, depth,
    )?;
    let tree = ModelTree {
        name,
        decls,
        defs,
        main: main.span,
        rule_name,
        rule,
        init,
        span: tokens.span_since(before),
    };
    Ok((imports, tree))
}

/// A model's tree, without its imports.
pub(crate) fn model_tree(
    alloc: Global,
    tokens: &mut Tokens<'_>,
    depth: usize,
) -> Result<ModelTree, GrammarRefusal>
    ensures { Reads (mapped second (reading.model depth) tokens.old) result tokens.new }
{
    let (_imports, tree) = model(alloc, tokens, depth)?;
    Ok(tree)
}
