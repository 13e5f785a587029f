//! What a `let` binds: a method for each line of the grammar.
ghost use Rattle.std.specs.Prelude.{◌<◌};
ghost use Rattle.asm_parse_cursor.specs.Reads.{Reads};
ghost use Rattle.asm_parse_theory.specs.Forms.{after_comma, many_listed, further_listed, listed};
ghost use Rattle.asm_parse_theory.specs.Terms as reading;
ghost use Rattle.asm_parse_theory.specs.Terms.{within};
ghost use Rattle.asm_parse_parts.specs.Nests.{Nests};

use crate::grammar::Grammar;
use crate::line::Line;
use asm_parse_cursor::{GrammarRefusal, Tokens};
use asm_syntax::{BindTree, BindsTree, Boxed, List, TermTree};
use std::alloc::Global;

impl<
    F: Fn(Global, &mut Tokens<'_>, usize, Line) -> Result<Boxed<TermTree>, GrammarRefusal> + Copy,
> Grammar<F> {
    /// binds = "(" VAR "=" term {"," VAR "=" term} ")"
    #[tactic(auto, unfolding(asm_parse_theory::specs::Terms::binds))]
    pub fn binds(&self, tokens: &mut Tokens<'_>) -> Result<BindsTree, GrammarRefusal>
        requires nests { Nests self.now.depth (F.pre self.now.line) (F.post self.now.line) }
        ensures { Reads (within self.now.depth reading.binds tokens.old) result tokens.new }
    {
        let before = tokens.rest();
        let _open = self.enter_sign(tokens, "(")?;
        let (first, others) = self.bind_list(tokens)?;
        let _close = tokens.expect_sign(")")?;
        let span = tokens.span_since(before);
        Ok(BindsTree {
            first,
            others,
            span,
        })
    }

    /// VAR "=" term {"," VAR "=" term}
    fn bind_list(
        &self,
        tokens: &mut Tokens<'_>,
    ) -> Result<(BindTree, List<BindTree>), GrammarRefusal>
        requires nests { Nests self.now.depth (F.pre self.now.line) (F.post self.now.line) }
        requires open { 0 < self.now.depth }
        ensures { Reads (listed (within self.now.depth reading.bind) tokens.old) result tokens.new }
    {
        let first = self.bind(tokens)?;
        let others = self.other_binds(tokens)?;
        Ok((first, others))
    }

    /// VAR "=" term
    #[tactic(auto, unfolding(asm_parse_theory::specs::Terms::bind))]
    fn bind(&self, tokens: &mut Tokens<'_>) -> Result<BindTree, GrammarRefusal>
        requires nests { Nests self.now.depth (F.pre self.now.line) (F.post self.now.line) }
        requires open { 0 < self.now.depth }
        ensures { Reads (within self.now.depth reading.bind tokens.old) result tokens.new }
    {
        let variable = tokens.expect_variable()?;
        let _equals = tokens.expect_sign("=")?;
        let value = self.term(tokens)?;
        let variable = variable.copy(self.alloc)?;
        Ok(BindTree { variable, value })
    }

    /// "," VAR "=" term
    fn next_bind(&self, tokens: &mut Tokens<'_>) -> Result<BindTree, GrammarRefusal>
        requires nests { Nests self.now.depth (F.pre self.now.line) (F.post self.now.line) }
        requires open { 0 < self.now.depth }
        ensures { Reads (after_comma (within self.now.depth reading.bind) tokens.old) result tokens.new }
    {
        let _comma = tokens.expect_sign(",")?;
        self.bind(tokens)
    }

    /// {"," VAR "=" term}
    fn other_binds(&self, tokens: &mut Tokens<'_>) -> Result<List<BindTree>, GrammarRefusal>
        requires nests { Nests self.now.depth (F.pre self.now.line) (F.post self.now.line) }
        requires open { 0 < self.now.depth }
        ensures { Reads (many_listed (within self.now.depth reading.bind) tokens.old) result tokens.new }
    {
        if !tokens.sees_sign(",") {
            return Ok(List::new(self.alloc));
        }
        let first = self.next_bind(tokens)?;
        self.more_binds(tokens, List::only(self.alloc, first)?)
    }

    /// The binds found, and each that follows them.
    fn more_binds(
        &self,
        tokens: &mut Tokens<'_>,
        mut found: List<BindTree>,
    ) -> Result<List<BindTree>, GrammarRefusal>
        requires nests { Nests self.now.depth (F.pre self.now.line) (F.post self.now.line) }
        requires open { 0 < self.now.depth }
        ensures { Reads (further_listed (within self.now.depth reading.bind) found tokens.old) result tokens.new }
    {
        for _turn in 0..tokens.left() {
            if !tokens.sees_sign(",") {
                return Ok(found);
            }
            let bind = self.next_bind(tokens)?;
            found.push(bind)?;
        }
        Ok(found)
    }
}
