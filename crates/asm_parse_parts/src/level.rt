//! Lists of terms at a level, where at most so many constructs may be open.
ghost use Rattle.std.specs.Prelude.{◌+◌};
ghost use Rattle.asm_grammar.specs.Parser.{mapped};
ghost use Rattle.asm_syntax.specs.Terms.{terms_of};
ghost use Rattle.asm_parse_cursor.specs.Reads.{Reads};
ghost use Rattle.asm_parse_theory.specs.Forms.{after_comma, several_listed, many_listed};
ghost use Rattle.asm_parse_theory.specs.Forms.{further_listed, listed};
ghost use Rattle.asm_parse_theory.specs.Terms.{term};
ghost use Rattle.asm_parse_parts.specs.Nests.{Nests};

use crate::line::Line;
use asm_parse_cursor::{GrammarRefusal, Tokens};
use asm_syntax::{Boxed, List, TermTree, TermsTree};
use std::alloc::Global;

/// A level of terms: at most so many constructs may be open in each.
#[derive(Clone, Copy)]
pub struct Level<F> {
    pub alloc: Global,
    /// How many constructs may be open.
    pub depth: usize,
    /// Reads a line where at most so many constructs are open.
    pub line: F,
}

impl<F: Fn(Global, &mut Tokens<'_>, usize, Line) -> Result<Boxed<TermTree>, GrammarRefusal>> Level<
    F,
> {
    /// term
    fn term(&self, tokens: &mut Tokens<'_>) -> Result<Boxed<TermTree>, GrammarRefusal>
        requires nests { Nests (self.now.depth + 1) (F.pre self.now.line) (F.post self.now.line) }
        ensures { Reads (term self.now.depth tokens.old) result tokens.new }
    {
        (self.line)(self.alloc, tokens, self.depth, Line::Term)
    }

    /// "," term
    fn next(&self, tokens: &mut Tokens<'_>) -> Result<Boxed<TermTree>, GrammarRefusal>
        requires nests { Nests (self.now.depth + 1) (F.pre self.now.line) (F.post self.now.line) }
        ensures { Reads (after_comma (term self.now.depth) tokens.old) result tokens.new }
    {
        let _comma = tokens.expect_sign(",")?;
        self.term(tokens)
    }

    /// "," term {"," term}
    pub fn several(&self, tokens: &mut Tokens<'_>) -> Result<List<Boxed<TermTree>>, GrammarRefusal>
        requires nests { Nests (self.now.depth + 1) (F.pre self.now.line) (F.post self.now.line) }
        ensures { Reads (several_listed (term self.now.depth) tokens.old) result tokens.new }
    {
        let first = self.next(tokens)?;
        self.more(tokens, List::only(self.alloc, first)?)
    }

    /// The terms found, and each that follows them.
    fn more(
        &self,
        tokens: &mut Tokens<'_>,
        mut found: List<Boxed<TermTree>>,
    ) -> Result<List<Boxed<TermTree>>, GrammarRefusal>
        requires nests { Nests (self.now.depth + 1) (F.pre self.now.line) (F.post self.now.line) }
        ensures { Reads (further_listed (term self.now.depth) found tokens.old) result tokens.new }
    {
        for _turn in 0..tokens.left() {
            if !tokens.sees_sign(",") {
                return Ok(found);
            }
            let term = self.next(tokens)?;
            found.push(term)?;
        }
        Ok(found)
    }

    /// {"," term}
    fn others(&self, tokens: &mut Tokens<'_>) -> Result<List<Boxed<TermTree>>, GrammarRefusal>
        requires nests { Nests (self.now.depth + 1) (F.pre self.now.line) (F.post self.now.line) }
        ensures { Reads (many_listed (term self.now.depth) tokens.old) result tokens.new }
    {
        if tokens.sees_sign(",") {
            self.several(tokens)
        } else {
            Ok(List::new(self.alloc))
        }
    }

    /// term {"," term}
    pub fn listed(
        &self,
        tokens: &mut Tokens<'_>,
    ) -> Result<(Boxed<TermTree>, List<Boxed<TermTree>>), GrammarRefusal>
        requires nests { Nests (self.now.depth + 1) (F.pre self.now.line) (F.post self.now.line) }
        ensures { Reads (listed (term self.now.depth) tokens.old) result tokens.new }
    {
        let first = self.term(tokens)?;
        let others = self.others(tokens)?;
        Ok((first, others))
    }

    /// term {"," term}, as arguments
    pub fn arguments(&self, tokens: &mut Tokens<'_>) -> Result<TermsTree, GrammarRefusal>
        requires nests { Nests (self.now.depth + 1) (F.pre self.now.line) (F.post self.now.line) }
        ensures { Reads (mapped terms_of (listed (term self.now.depth)) tokens.old) result tokens.new }
    {
        let (first, others) = self.listed(tokens)?;
        Ok(TermsTree { first, others })
    }
}
