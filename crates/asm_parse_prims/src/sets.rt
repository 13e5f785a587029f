//! Sets, sequences and their items.
ghost use Rattle.std.specs.Prelude.{◌<◌};
ghost use Rattle.asm_parse_cursor.specs.Reads.{Reads, ReadsAs};
ghost use Rattle.asm_parse_theory.specs.Terms as reading;
ghost use Rattle.asm_parse_theory.specs.Terms.{inside, within, items, maybe_arguments};
ghost use Rattle.asm_parse_parts.specs.Nests.{Nests};
ghost use Rattle.asm_parse_prims.specs.Constructs.{rest_inside, end_inside};
ghost use Rattle.asm_parse_prims.specs.Sets.{items_of, rest_of};

use crate::ahead::{is_range_sign, range_sign, starts_term};
use crate::prims::Prims;
use crate::trees::{Further, set};
use asm_parse_cursor::{GrammarRefusal, Tokens};
use asm_parse_parts::Line;
use asm_syntax::{Boxed, TermTree, TermsTree};
use std::alloc::Global;

impl<
    F: Fn(Global, &mut Tokens<'_>, usize, Line) -> Result<Boxed<TermTree>, GrammarRefusal> + Copy,
> Prims<F> {
    /// "{" [term ((".." | ":") term | {"," term})] "}"
    #[tactic(auto, unfolding(asm_parse_theory::specs::Terms::set))]
    pub(crate) fn set(&self, tokens: &mut Tokens<'_>) -> Result<Boxed<TermTree>, GrammarRefusal>
        requires line { Nests self.now.at.depth (F.pre self.now.at.line) (F.post self.now.at.line) }
        ensures { Reads (within self.now.at.depth reading.set tokens.old) result tokens.new }
    {
        let before = tokens.rest();
        let _open = self.at.enter_sign(tokens, "{")?;
        let items = self.items(tokens)?;
        let _close = tokens.expect_sign("}")?;
        let span = tokens.span_since(before);
        Ok(set(self.at.alloc, span, items)?)
    }

    /// [term ((".." | ":") term | {"," term})]
    fn items(
        &self,
        tokens: &mut Tokens<'_>,
    ) -> Result<Option<(Boxed<TermTree>, Further)>, GrammarRefusal>
        requires line { Nests self.now.at.depth (F.pre self.now.at.line) (F.post self.now.at.line) }
        requires open { 0 < self.now.at.depth }
        ensures { ReadsAs items_of (items (inside self.now.at.depth) tokens.old) result tokens.new }
    {
        if !starts_term(tokens) {
            return Ok(None);
        }
        let first = self.at.term(tokens)?;
        let further = self.further(tokens)?;
        Ok(Some((first, further)))
    }

    /// [(".." | ":") term | "," term {"," term}]
    #[tactic(auto, using(crate::proofs::Starts::goes_on_either))]
    fn further(&self, tokens: &mut Tokens<'_>) -> Result<Further, GrammarRefusal>
        requires line { Nests self.now.at.depth (F.pre self.now.at.line) (F.post self.now.at.line) }
        requires open { 0 < self.now.at.depth }
        ensures { ReadsAs rest_of (rest_inside self.now.at.depth tokens.old) result tokens.new }
    {
        if is_range_sign(tokens) {
            let last = self.last(tokens)?;
            Ok(Further::To(last))
        } else if tokens.sees_sign(",") {
            let others = self.at.several(tokens)?;
            Ok(Further::And(others))
        } else {
            Ok(Further::Nothing)
        }
    }

    /// (".." | ":") term
    fn last(&self, tokens: &mut Tokens<'_>) -> Result<Boxed<TermTree>, GrammarRefusal>
        requires line { Nests self.now.at.depth (F.pre self.now.at.line) (F.post self.now.at.line) }
        requires open { 0 < self.now.at.depth }
        ensures { Reads (end_inside self.now.at.depth tokens.old) result tokens.new }
    {
        let _sign = range_sign(tokens)?;
        self.at.term(tokens)
    }

    /// "[" [term {"," term}] "]"
    #[tactic(auto, unfolding(asm_parse_theory::specs::Terms::sequence))]
    pub(crate) fn sequence(
        &self,
        tokens: &mut Tokens<'_>,
    ) -> Result<Boxed<TermTree>, GrammarRefusal>
        requires line { Nests self.now.at.depth (F.pre self.now.at.line) (F.post self.now.at.line) }
        ensures { Reads (within self.now.at.depth reading.sequence tokens.old) result tokens.new }
    {
        let before = tokens.rest();
        let _open = self.at.enter_sign(tokens, "[")?;
        let items = self.maybe_arguments(tokens)?;
        let _close = tokens.expect_sign("]")?;
        let span = tokens.span_since(before);
        Ok(Boxed::new(self.at.alloc, TermTree::Seq(items, span))?)
    }

    /// [term {"," term}]
    fn maybe_arguments(&self, tokens: &mut Tokens<'_>) -> Result<Option<TermsTree>, GrammarRefusal>
        requires line { Nests self.now.at.depth (F.pre self.now.at.line) (F.post self.now.at.line) }
        requires open { 0 < self.now.at.depth }
        ensures { Reads (maybe_arguments (inside self.now.at.depth) tokens.old) result tokens.new }
    {
        if starts_term(tokens) {
            let items = self.at.arguments(tokens)?;
            Ok(Some(items))
        } else {
            Ok(None)
        }
    }
}
