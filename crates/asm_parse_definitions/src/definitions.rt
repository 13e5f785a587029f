//! Definitions: a function or method for each line of the grammar. What reads rules is taken as a
//! value.
ghost use Rattle.std.specs.Prelude.{◌≡◌};
ghost use Rattle.asm_grammar.specs.Parser.{sees};
ghost use Rattle.asm_parse_cursor.specs.Reads.{Reads};
ghost use Rattle.asm_parse_theory.specs.Firsts.{starts_def, starts_macro};
ghost use Rattle.asm_parse_theory.specs.Models as reading;
ghost use Rattle.asm_parse_theory.specs.Rules as rules;
ghost use Rattle.asm_parse_definitions.specs.Lists.{all_defs, more_defs};
ghost use Rattle.asm_parse_definitions.specs.Reader.{ReadsRules};

use crate::equations::{equation, parameters};
use crate::integer_sets::integers;
use asm_parse_cursor::{GrammarRefusal, Tokens};
use asm_parse_domains::{identifier, identifiers, maybe_identifier, maybe_word};
use asm_parse_terms::term;
use asm_syntax::{Boxed, DefTree, List, ParamsTree, RuleTree, TermTree, Token};
use std::alloc::Global;

/// Reads definitions in which at most so many constructs are open at once.
#[derive(Clone, Copy)]
pub struct Defs<F> {
    pub alloc: Global,
    /// How many constructs may be open.
    pub depth: usize,
    /// Reads a rule where at most so many constructs are open.
    pub rule: F,
}

impl<F: Fn(Global, &mut Tokens<'_>, usize) -> Result<Boxed<RuleTree>, GrammarRefusal>> Defs<F> {
    /// {def}
    pub fn defs(&self, tokens: &mut Tokens<'_>) -> Result<List<DefTree>, GrammarRefusal>
        requires rules { ReadsRules self.now.depth (F.pre self.now.rule) (F.post self.now.rule) }
        ensures { Reads (all_defs self.now.depth tokens.old) result tokens.new }
    {
        if !starts_def(tokens) {
            return Ok(List::new(self.alloc));
        }
        let first = self.def(tokens)?;
        self.more_defs(tokens, List::only(self.alloc, first)?)
    }

    /// Those found, and each that follows them.
    fn more_defs(
        &self,
        tokens: &mut Tokens<'_>,
        mut found: List<DefTree>,
    ) -> Result<List<DefTree>, GrammarRefusal>
        requires rules { ReadsRules self.now.depth (F.pre self.now.rule) (F.post self.now.rule) }
        ensures { Reads (more_defs self.now.depth found tokens.old) result tokens.new }
    {
        for _turn in 0..tokens.left() {
            if !starts_def(tokens) {
                return Ok(found);
            }
            let one = match self.def(tokens) {
                Ok(one) => one,
                Err(why) => return Err(why),
            };
            found.push(one)?;
        }
        Ok(found)
    }

    /// def
    #[tactic(auto, unfolding(asm_parse_theory::specs::Models::def))]
    fn def(&self, tokens: &mut Tokens<'_>) -> Result<DefTree, GrammarRefusal>
        requires rules { ReadsRules self.now.depth (F.pre self.now.rule) (F.post self.now.rule) }
        ensures { Reads (reading.def self.now.depth tokens.old) result tokens.new }
    {
        if tokens.sees_word("domain") {
            integers(self.alloc, tokens, self.depth)
        } else if tokens.sees_word("function") {
            function(self.alloc, tokens, self.depth)
        } else if starts_macro(tokens) {
            self.macro_rule(tokens)
        } else {
            invariant(self.alloc, tokens, self.depth)
        }
    }

    /// ["macro"] "rule" ID [params] "=" rule
    #[tactic(auto, using(crate::proofs::Named::macro_is))]
    fn macro_rule(&self, tokens: &mut Tokens<'_>) -> Result<DefTree, GrammarRefusal>
        requires rules { ReadsRules self.now.depth (F.pre self.now.rule) (F.post self.now.rule) }
        ensures { Reads (reading.macro self.now.depth tokens.old) result tokens.new }
    {
        let before = tokens.rest();
        let _macro = maybe_word(tokens, "macro")?;
        let _rule = tokens.expect_word("rule")?;
        let name = identifier(self.alloc, tokens)?;
        let (params, body) = self.macro_body(tokens)?;
        Ok(DefTree::Rule(name, params, body, tokens.span_since(before)))
    }

    /// [params] "=" rule
    fn macro_body(
        &self,
        tokens: &mut Tokens<'_>,
    ) -> Result<(Option<ParamsTree>, Boxed<RuleTree>), GrammarRefusal>
        requires rules { ReadsRules self.now.depth (F.pre self.now.rule) (F.post self.now.rule) }
        ensures { Reads (reading.macro_body self.now.depth tokens.old) result tokens.new }
    {
        let params = parameters(self.alloc, tokens, self.depth)?;
        let _equals = tokens.expect_sign("=")?;
        let rule = self.read_rule(tokens)?;
        Ok((params, rule))
    }

    /// rule
    fn read_rule(&self, tokens: &mut Tokens<'_>) -> Result<Boxed<RuleTree>, GrammarRefusal>
        requires rules { ReadsRules self.now.depth (F.pre self.now.rule) (F.post self.now.rule) }
        ensures { Reads (rules.rule self.now.depth tokens.old) result tokens.new }
    {
        (self.rule)(self.alloc, tokens, self.depth)
    }
}

/// Whether a macro rule begins with the next token.
fn starts_macro(tokens: &Tokens<'_>) -> bool
    ensures { result ≡ sees starts_macro tokens.now }
{
    tokens.sees_word("macro") || tokens.sees_word("rule")
}

/// Whether a definition begins with the next token.
fn starts_def(tokens: &Tokens<'_>) -> bool
    ensures { result ≡ sees starts_def tokens.now }
{
    tokens.sees_word("domain")
        || tokens.sees_word("function")
        || tokens.sees_word("macro")
        || tokens.sees_word("rule")
        || tokens.sees_word("invariant")
}

/// "function" ID [params] "=" term
#[tactic(auto, unfolding(asm_parse_theory::specs::Models::function))]
fn function(alloc: Global, tokens: &mut Tokens<'_>, depth: usize) -> Result<DefTree, GrammarRefusal>
    ensures { Reads (reading.function depth tokens.old) result tokens.new }
{
    let before = tokens.rest();
    let (name, (params, term)) = equation(alloc, tokens, depth)?;
    Ok(DefTree::Function(name, params, term, tokens.span_since(before)))
}

/// "invariant" [ID] "over" ID {"," ID} ":" term
#[tactic(auto, unfolding(asm_parse_theory::specs::Models::invariant))]
fn invariant(
    alloc: Global,
    tokens: &mut Tokens<'_>,
    depth: usize,
) -> Result<DefTree, GrammarRefusal>
    ensures { Reads (reading.invariant depth tokens.old) result tokens.new }
{
    let before = tokens.rest();
    let _invariant = tokens.expect_word("invariant")?;
    let name = maybe_identifier(alloc, tokens)?;
    let ((first, others), term) = statement(alloc, tokens, depth)?;
    Ok(DefTree::Invariant(name, first, others, term, tokens.span_since(before)))
}

/// "over" ID {"," ID} ":" term
fn statement(
    alloc: Global,
    tokens: &mut Tokens<'_>,
    depth: usize,
) -> Result<((Token, List<Token>), Boxed<TermTree>), GrammarRefusal>
    ensures { Reads (reading.invariant_body depth tokens.old) result tokens.new }
{
    let _over = tokens.expect_word("over")?;
    let names = identifiers(alloc, tokens)?;
    let _colon = tokens.expect_sign(":")?;
    let term = term(alloc, tokens, depth)?;
    Ok((names, term))
}
