//! The cases of a `switch`: a method for each line of the grammar.
ghost use Rattle.std.specs.Prelude.{◌<◌, codes};
ghost use Rattle.asm_syntax.specs.Marks.{is, keyword};
ghost use Rattle.asm_parse_cursor.specs.Reads.{Reads};
ghost use Rattle.asm_parse_theory.specs.Forms.{after_sign, further};
ghost use Rattle.asm_parse_theory.specs.Terms as reading;
ghost use Rattle.asm_parse_theory.specs.Terms.{inside, within, term_in, alternative};
ghost use Rattle.asm_parse_parts.specs.Nests.{Nests};

use crate::grammar::Grammar;
use crate::line::Line;
use asm_parse_cursor::{GrammarRefusal, Tokens};
use asm_syntax::{Boxed, CaseTree, List, TermTree};
use std::alloc::Global;

impl<
    F: Fn(Global, &mut Tokens<'_>, usize, Line) -> Result<Boxed<TermTree>, GrammarRefusal> + Copy,
> Grammar<F> {
    /// {"case" term ":" term} ["otherwise" term]
    pub fn choices(
        &self,
        tokens: &mut Tokens<'_>,
    ) -> Result<(List<CaseTree>, Option<Boxed<TermTree>>), GrammarRefusal>
        requires nests { Nests self.now.depth (F.pre self.now.line) (F.post self.now.line) }
        requires open { 0 < self.now.depth }
        ensures { Reads (within self.now.depth reading.choices tokens.old) result tokens.new }
    {
        let cases = self.cases(tokens)?;
        let other = self.maybe_after_word(tokens, "otherwise")?;
        Ok((cases, other))
    }

    /// {"case" term ":" term}
    fn cases(&self, tokens: &mut Tokens<'_>) -> Result<List<CaseTree>, GrammarRefusal>
        requires nests { Nests self.now.depth (F.pre self.now.line) (F.post self.now.line) }
        requires open { 0 < self.now.depth }
        ensures { Reads (within self.now.depth reading.cases tokens.old) result tokens.new }
    {
        if !tokens.sees_word("case") {
            return Ok(List::new(self.alloc));
        }
        let first = self.case(tokens)?;
        self.more_cases(tokens, List::only(self.alloc, first)?)
    }

    /// The cases found, and each that follows them.
    fn more_cases(
        &self,
        tokens: &mut Tokens<'_>,
        mut found: List<CaseTree>,
    ) -> Result<List<CaseTree>, GrammarRefusal>
        requires nests { Nests self.now.depth (F.pre self.now.line) (F.post self.now.line) }
        requires open { 0 < self.now.depth }
        ensures { Reads (further (is (keyword (codes "case"))) (within self.now.depth reading.case) found tokens.old) result tokens.new }
    {
        for _turn in 0..tokens.left() {
            if !tokens.sees_word("case") {
                return Ok(found);
            }
            let case = self.case(tokens)?;
            found.push(case)?;
        }
        Ok(found)
    }

    /// "case" term ":" term
    #[tactic(auto, unfolding(asm_parse_theory::specs::Terms::case))]
    fn case(&self, tokens: &mut Tokens<'_>) -> Result<CaseTree, GrammarRefusal>
        requires nests { Nests self.now.depth (F.pre self.now.line) (F.post self.now.line) }
        requires open { 0 < self.now.depth }
        ensures { Reads (within self.now.depth reading.case tokens.old) result tokens.new }
    {
        let _case = tokens.expect_word("case")?;
        let (value, term) = self.alternative(tokens)?;
        Ok(CaseTree { value, term })
    }

    /// term ":" term
    fn alternative(
        &self,
        tokens: &mut Tokens<'_>,
    ) -> Result<(Boxed<TermTree>, Boxed<TermTree>), GrammarRefusal>
        requires nests { Nests self.now.depth (F.pre self.now.line) (F.post self.now.line) }
        requires open { 0 < self.now.depth }
        ensures { Reads (alternative (inside self.now.depth) tokens.old) result tokens.new }
    {
        let value = self.term(tokens)?;
        let term = self.after_colon(tokens)?;
        Ok((value, term))
    }

    /// ":" term
    fn after_colon(&self, tokens: &mut Tokens<'_>) -> Result<Boxed<TermTree>, GrammarRefusal>
        requires nests { Nests self.now.depth (F.pre self.now.line) (F.post self.now.line) }
        requires open { 0 < self.now.depth }
        ensures { Reads (after_sign (codes ":") (term_in (inside self.now.depth)) tokens.old) result tokens.new }
    {
        let _colon = tokens.expect_sign(":")?;
        self.term(tokens)
    }
}
