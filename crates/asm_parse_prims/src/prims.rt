//! Terms that are no operators with operands: a method for each line of the grammar.
ghost use Rattle.std.specs.Prelude.{◌<◌};
ghost use Rattle.asm_parse_cursor.specs.Reads.{Reads};
ghost use Rattle.asm_parse_theory.specs.Terms as reading;
ghost use Rattle.asm_parse_theory.specs.Terms.{inside, within};
ghost use Rattle.asm_parse_theory.specs.Terms.{parenthesis, parenthesized, switch_term};
ghost use Rattle.asm_parse_parts.specs.Nests.{Nests};
ghost use Rattle.asm_parse_prims.specs.Constructs.{guarded, bound, compared};

use crate::ahead::{starts_plain, starts_quantifier};
use crate::trees::{
    IfParts, LetParts, SwitchParts, if_tree, let_tree, switch_tree, tuple, with_extent,
};
use asm_parse_cursor::{GrammarRefusal, Tokens};
use asm_parse_parts::{Grammar, Line};
use asm_syntax::{Boxed, TermTree, TermsTree};
use std::alloc::Global;

/// Primary terms and quantifiers. Their parts are read by `at`, one construct deeper.
#[derive(Clone, Copy)]
pub struct Prims<F> {
    /// How many constructs may be open, and what reads a line inside one.
    pub at: Grammar<F>,
}

impl<
    F: Fn(Global, &mut Tokens<'_>, usize, Line) -> Result<Boxed<TermTree>, GrammarRefusal> + Copy,
> Prims<F> {
    /// prim: a term that is no operator with operands.
    #[tactic(auto, unfolding(asm_parse_theory::specs::Terms::prim_form))]
    pub fn prim(&self, tokens: &mut Tokens<'_>) -> Result<Boxed<TermTree>, GrammarRefusal>
        requires line { Nests self.now.at.depth (F.pre self.now.at.line) (F.post self.now.at.line) }
        ensures { Reads (within self.now.at.depth reading.prim_form tokens.old) result tokens.new }
    {
        if starts_plain(tokens) {
            self.plain(tokens)
        } else if tokens.sees_id() {
            self.name(tokens)
        } else if tokens.sees_sign("(") {
            self.parenthesis(tokens)
        } else if tokens.sees_sign("{") {
            self.set(tokens)
        } else if tokens.sees_sign("[") {
            self.sequence(tokens)
        } else if tokens.sees_word("if") {
            self.if_term(tokens)
        } else if tokens.sees_word("let") {
            self.let_term(tokens)
        } else {
            self.switch_term(tokens)
        }
    }

    /// ID ["(" term {"," term} ")"]
    #[tactic(auto, unfolding(asm_parse_theory::specs::Terms::name))]
    fn name(&self, tokens: &mut Tokens<'_>) -> Result<Boxed<TermTree>, GrammarRefusal>
        requires line { Nests self.now.at.depth (F.pre self.now.at.line) (F.post self.now.at.line) }
        ensures { Reads (within self.now.at.depth reading.name tokens.old) result tokens.new }
    {
        let before = tokens.rest();
        let name = tokens.expect_id()?;
        let args = self.maybe_call(tokens)?;
        let span = tokens.span_since(before);
        let name = name.copy(self.at.alloc)?;
        Ok(Boxed::new(self.at.alloc, TermTree::Name(name, args, span))?)
    }

    /// ["(" term {"," term} ")"]
    fn maybe_call(&self, tokens: &mut Tokens<'_>) -> Result<Option<TermsTree>, GrammarRefusal>
        requires line { Nests self.now.at.depth (F.pre self.now.at.line) (F.post self.now.at.line) }
        ensures { Reads (within self.now.at.depth reading.maybe_call tokens.old) result tokens.new }
    {
        if tokens.sees_sign("(") {
            let args = self.call(tokens)?;
            Ok(Some(args))
        } else {
            Ok(None)
        }
    }

    /// "(" term {"," term} ")"
    #[tactic(auto, unfolding(asm_parse_theory::specs::Terms::call))]
    pub fn call(&self, tokens: &mut Tokens<'_>) -> Result<TermsTree, GrammarRefusal>
        requires line { Nests self.now.at.depth (F.pre self.now.at.line) (F.post self.now.at.line) }
        ensures { Reads (within self.now.at.depth reading.call tokens.old) result tokens.new }
    {
        let _open = self.at.enter_sign(tokens, "(")?;
        let args = self.at.arguments(tokens)?;
        let _close = tokens.expect_sign(")")?;
        Ok(args)
    }

    /// "(" term {"," term} ")", and a quantifier in parentheses
    #[tactic(auto, unfolding(asm_parse_theory::specs::Terms::parenthesis))]
    fn parenthesis(&self, tokens: &mut Tokens<'_>) -> Result<Boxed<TermTree>, GrammarRefusal>
        requires line { Nests self.now.at.depth (F.pre self.now.at.line) (F.post self.now.at.line) }
        ensures { Reads (within self.now.at.depth parenthesis tokens.old) result tokens.new }
    {
        let before = tokens.rest();
        let _open = self.at.enter_sign(tokens, "(")?;
        let term = self.parenthesized(tokens)?;
        let _close = tokens.expect_sign(")")?;
        let span = tokens.span_since(before);
        Ok(with_extent(self.at.alloc, span, term)?)
    }

    /// What stands between parentheses.
    fn parenthesized(&self, tokens: &mut Tokens<'_>) -> Result<Boxed<TermTree>, GrammarRefusal>
        requires line { Nests self.now.at.depth (F.pre self.now.at.line) (F.post self.now.at.line) }
        requires open { 0 < self.now.at.depth }
        ensures { Reads (parenthesized (inside self.now.at.depth) tokens.old) result tokens.new }
    {
        if starts_quantifier(tokens) {
            self.at.inside(tokens, Line::Quantifier)
        } else {
            self.tuple(tokens)
        }
    }

    /// term {"," term}
    fn tuple(&self, tokens: &mut Tokens<'_>) -> Result<Boxed<TermTree>, GrammarRefusal>
        requires line { Nests self.now.at.depth (F.pre self.now.at.line) (F.post self.now.at.line) }
        requires open { 0 < self.now.at.depth }
        ensures { Reads (reading.tuple (inside self.now.at.depth) tokens.old) result tokens.new }
    {
        let before = tokens.rest();
        let (first, others) = self.at.listed(tokens)?;
        let span = tokens.span_since(before);
        Ok(tuple(self.at.alloc, span, first, others)?)
    }

    /// "if" term "then" term ["else" term] "endif"
    #[tactic(auto, unfolding(asm_parse_theory::specs::Terms::if_term))]
    fn if_term(&self, tokens: &mut Tokens<'_>) -> Result<Boxed<TermTree>, GrammarRefusal>
        requires line { Nests self.now.at.depth (F.pre self.now.at.line) (F.post self.now.at.line) }
        ensures { Reads (within self.now.at.depth reading.if_term tokens.old) result tokens.new }
    {
        let before = tokens.rest();
        let _if = self.at.enter_word(tokens, "if")?;
        let parts = self.guarded(tokens)?;
        let _endif = tokens.expect_word("endif")?;
        let span = tokens.span_since(before);
        Ok(if_tree(self.at.alloc, span, parts)?)
    }

    /// term "then" term ["else" term]
    fn guarded(&self, tokens: &mut Tokens<'_>) -> Result<IfParts, GrammarRefusal>
        requires line { Nests self.now.at.depth (F.pre self.now.at.line) (F.post self.now.at.line) }
        requires open { 0 < self.now.at.depth }
        ensures { Reads (guarded self.now.at.depth tokens.old) result tokens.new }
    {
        let guard = self.at.term(tokens)?;
        let branches = self.branches(tokens)?;
        Ok((guard, branches))
    }

    /// "then" term ["else" term]
    fn branches(
        &self,
        tokens: &mut Tokens<'_>,
    ) -> Result<(Boxed<TermTree>, Option<Boxed<TermTree>>), GrammarRefusal>
        requires line { Nests self.now.at.depth (F.pre self.now.at.line) (F.post self.now.at.line) }
        requires open { 0 < self.now.at.depth }
        ensures { Reads (reading.branches (inside self.now.at.depth) tokens.old) result tokens.new }
    {
        let first = self.at.after_word(tokens, "then")?;
        let other = self.at.maybe_after_word(tokens, "else")?;
        Ok((first, other))
    }

    /// "let" binds "in" term "endlet"
    #[tactic(auto, unfolding(asm_parse_theory::specs::Terms::let_term))]
    fn let_term(&self, tokens: &mut Tokens<'_>) -> Result<Boxed<TermTree>, GrammarRefusal>
        requires line { Nests self.now.at.depth (F.pre self.now.at.line) (F.post self.now.at.line) }
        ensures { Reads (within self.now.at.depth reading.let_term tokens.old) result tokens.new }
    {
        let before = tokens.rest();
        let _let = self.at.enter_word(tokens, "let")?;
        let parts = self.bound(tokens)?;
        let _endlet = tokens.expect_word("endlet")?;
        let span = tokens.span_since(before);
        Ok(let_tree(self.at.alloc, span, parts)?)
    }

    /// binds "in" term
    fn bound(&self, tokens: &mut Tokens<'_>) -> Result<LetParts, GrammarRefusal>
        requires line { Nests self.now.at.depth (F.pre self.now.at.line) (F.post self.now.at.line) }
        requires open { 0 < self.now.at.depth }
        ensures { Reads (bound self.now.at.depth tokens.old) result tokens.new }
    {
        let binds = self.at.inner_binds(tokens)?;
        let body = self.at.after_word(tokens, "in")?;
        Ok((binds, body))
    }

    /// "switch" term {"case" term ":" term} ["otherwise" term] "endswitch"
    #[tactic(auto, unfolding(asm_parse_theory::specs::Terms::switch_term))]
    fn switch_term(&self, tokens: &mut Tokens<'_>) -> Result<Boxed<TermTree>, GrammarRefusal>
        requires line { Nests self.now.at.depth (F.pre self.now.at.line) (F.post self.now.at.line) }
        ensures { Reads (within self.now.at.depth switch_term tokens.old) result tokens.new }
    {
        let before = tokens.rest();
        let _switch = self.at.enter_word(tokens, "switch")?;
        let parts = self.compared(tokens)?;
        let _endswitch = tokens.expect_word("endswitch")?;
        let span = tokens.span_since(before);
        Ok(switch_tree(self.at.alloc, span, parts)?)
    }

    /// term {"case" term ":" term} ["otherwise" term]
    fn compared(&self, tokens: &mut Tokens<'_>) -> Result<SwitchParts, GrammarRefusal>
        requires line { Nests self.now.at.depth (F.pre self.now.at.line) (F.post self.now.at.line) }
        requires open { 0 < self.now.at.depth }
        ensures { Reads (compared self.now.at.depth tokens.old) result tokens.new }
    {
        let value = self.at.term(tokens)?;
        let choices = self.at.choices(tokens)?;
        Ok((value, choices))
    }
}
