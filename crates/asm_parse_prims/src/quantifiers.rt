//! Quantifiers without their parentheses.
ghost use Rattle.asm_parse_cursor.specs.Reads.{Reads};
ghost use Rattle.asm_parse_theory.specs.Terms as reading;
ghost use Rattle.asm_parse_theory.specs.Terms.{within};
ghost use Rattle.asm_parse_parts.specs.Nests.{Nests};

use crate::prims::Prims;
use crate::trees::{exist_tree, forall_tree};
use asm_parse_cursor::{GrammarRefusal, Tokens};
use asm_parse_parts::Line;
use asm_syntax::{Boxed, TermTree};
use std::alloc::Global;

impl<
    F: Fn(Global, &mut Tokens<'_>, usize, Line) -> Result<Boxed<TermTree>, GrammarRefusal> + Copy,
> Prims<F> {
    /// ("forall" | "exist" ["unique"]) ranges "with" term
    #[tactic(auto, unfolding(asm_parse_theory::specs::Terms::quantified))]
    pub fn quantified(&self, tokens: &mut Tokens<'_>) -> Result<Boxed<TermTree>, GrammarRefusal>
        requires line { Nests self.now.at.depth (F.pre self.now.at.line) (F.post self.now.at.line) }
        ensures { Reads (within self.now.at.depth reading.quantified tokens.old) result tokens.new }
    {
        if tokens.sees_word("forall") {
            self.forall(tokens)
        } else {
            self.exist(tokens)
        }
    }

    /// "forall" ranges "with" term
    #[tactic(auto, unfolding(asm_parse_theory::specs::Terms::forall))]
    fn forall(&self, tokens: &mut Tokens<'_>) -> Result<Boxed<TermTree>, GrammarRefusal>
        requires line { Nests self.now.at.depth (F.pre self.now.at.line) (F.post self.now.at.line) }
        ensures { Reads (within self.now.at.depth reading.forall tokens.old) result tokens.new }
    {
        let before = tokens.rest();
        let _forall = self.at.enter_word(tokens, "forall")?;
        let parts = self.at.ranged(tokens)?;
        let span = tokens.span_since(before);
        Ok(forall_tree(self.at.alloc, span, parts)?)
    }

    /// "exist" ["unique"] ranges "with" term
    #[tactic(auto, unfolding(asm_parse_theory::specs::Terms::exist))]
    fn exist(&self, tokens: &mut Tokens<'_>) -> Result<Boxed<TermTree>, GrammarRefusal>
        requires line { Nests self.now.at.depth (F.pre self.now.at.line) (F.post self.now.at.line) }
        ensures { Reads (within self.now.at.depth reading.exist tokens.old) result tokens.new }
    {
        let before = tokens.rest();
        let _exist = self.at.enter_word(tokens, "exist")?;
        if tokens.sees_word("unique") {
            let _unique = tokens.expect_word("unique")?;
            let parts = self.at.ranged(tokens)?;
            let span = tokens.span_since(before);
            Ok(exist_tree(self.at.alloc, span, true, parts)?)
        } else {
            let parts = self.at.ranged(tokens)?;
            let span = tokens.span_since(before);
            Ok(exist_tree(self.at.alloc, span, false, parts)?)
        }
    }
}
