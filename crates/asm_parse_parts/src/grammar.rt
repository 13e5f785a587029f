//! What is read inside a construct of terms that was opened, and the tokens that open one.
ghost use Rattle.std.specs.Prelude.{◌<◌, OnOk};
ghost use Rattle.asm_parse_cursor.specs.Reads.{Reads, Lends};
ghost use Rattle.asm_parse_theory.specs.Forms.{after_word, maybe_after_word, several_listed, listed};
ghost use Rattle.asm_parse_theory.specs.Terms.{inside, term_in, ranged, arguments};
ghost use Rattle.asm_parse_parts.specs.Enters.{enter_word, enter_sign};
ghost use Rattle.asm_parse_parts.specs.Lines.{line_of};
ghost use Rattle.asm_parse_parts.specs.Nests.{Nests};

use crate::level::Level;
use crate::line::Line;
use asm_parse_cursor::{GrammarRefusal, Tokens};
use asm_parse_domains::ranges;
use asm_syntax::{BindsTree, Boxed, List, RangesTree, TermTree, TermsTree, Token};
use std::alloc::Global;

/// The lines of terms in which at most so many constructs are open at once.
#[derive(Clone, Copy)]
pub struct Grammar<F> {
    pub alloc: Global,
    /// How many more constructs may be open.
    pub depth: usize,
    /// Reads a line where at most so many constructs are open.
    pub line: F,
}

impl<
    F: Fn(Global, &mut Tokens<'_>, usize, Line) -> Result<Boxed<TermTree>, GrammarRefusal> + Copy,
> Grammar<F> {
    /// Takes this quoted word, which opens a construct, if one more may be open.
    pub fn enter_word<'a>(
        &self,
        tokens: &mut Tokens<'a>,
        word: &str,
    ) -> Result<&'a Token, GrammarRefusal>
        ensures reads { Lends (enter_word self.now.depth word.now tokens.old) result tokens.new }
        ensures open { OnOk result (0 < self.now.depth) }
    {
        tokens.enter_word(self.depth > 0, word)
    }

    /// Takes this symbol, which opens a construct, if one more may be open.
    pub fn enter_sign<'a>(
        &self,
        tokens: &mut Tokens<'a>,
        sign: &str,
    ) -> Result<&'a Token, GrammarRefusal>
        ensures reads { Lends (enter_sign self.now.depth sign.now tokens.old) result tokens.new }
        ensures open { OnOk result (0 < self.now.depth) }
    {
        tokens.enter_sign(self.depth > 0, sign)
    }

    // ---- inside a construct that was opened

    /// A line.
    pub fn inside(
        &self,
        tokens: &mut Tokens<'_>,
        line: Line,
    ) -> Result<Boxed<TermTree>, GrammarRefusal>
        requires nests { Nests self.now.depth (F.pre self.now.line) (F.post self.now.line) }
        requires open { 0 < self.now.depth }
        ensures { Reads ((inside self.now.depth).line (line_of line) tokens.old) result tokens.new }
    {
        (self.line)(self.alloc, tokens, self.depth - 1, line)
    }

    /// term
    pub fn term(&self, tokens: &mut Tokens<'_>) -> Result<Boxed<TermTree>, GrammarRefusal>
        requires nests { Nests self.now.depth (F.pre self.now.line) (F.post self.now.line) }
        requires open { 0 < self.now.depth }
        ensures { Reads (term_in (inside self.now.depth) tokens.old) result tokens.new }
    {
        self.inside(tokens, Line::Term)
    }

    /// A quoted word, and then a term.
    pub fn after_word(
        &self,
        tokens: &mut Tokens<'_>,
        word: &str,
    ) -> Result<Boxed<TermTree>, GrammarRefusal>
        requires nests { Nests self.now.depth (F.pre self.now.line) (F.post self.now.line) }
        requires open { 0 < self.now.depth }
        ensures { Reads (after_word word.now (term_in (inside self.now.depth)) tokens.old) result tokens.new }
    {
        let _word = tokens.expect_word(word)?;
        self.term(tokens)
    }

    /// A quoted word, and then a term; or nothing.
    pub fn maybe_after_word(
        &self,
        tokens: &mut Tokens<'_>,
        word: &str,
    ) -> Result<Option<Boxed<TermTree>>, GrammarRefusal>
        requires nests { Nests self.now.depth (F.pre self.now.line) (F.post self.now.line) }
        requires open { 0 < self.now.depth }
        ensures { Reads (maybe_after_word word.now (term_in (inside self.now.depth)) tokens.old) result tokens.new }
    {
        if tokens.sees_word(word) {
            let term = self.after_word(tokens, word)?;
            Ok(Some(term))
        } else {
            Ok(None)
        }
    }

    /// "," term {"," term}
    pub fn several(&self, tokens: &mut Tokens<'_>) -> Result<List<Boxed<TermTree>>, GrammarRefusal>
        requires nests { Nests self.now.depth (F.pre self.now.line) (F.post self.now.line) }
        requires open { 0 < self.now.depth }
        ensures { Reads (several_listed (term_in (inside self.now.depth)) tokens.old) result tokens.new }
    {
        let level = Level {
            alloc: self.alloc,
            depth: self.depth - 1,
            line: self.line,
        };
        level.several(tokens)
    }

    /// term {"," term}
    pub fn listed(
        &self,
        tokens: &mut Tokens<'_>,
    ) -> Result<(Boxed<TermTree>, List<Boxed<TermTree>>), GrammarRefusal>
        requires nests { Nests self.now.depth (F.pre self.now.line) (F.post self.now.line) }
        requires open { 0 < self.now.depth }
        ensures { Reads (listed (term_in (inside self.now.depth)) tokens.old) result tokens.new }
    {
        let level = Level {
            alloc: self.alloc,
            depth: self.depth - 1,
            line: self.line,
        };
        level.listed(tokens)
    }

    /// term {"," term}, as arguments
    pub fn arguments(&self, tokens: &mut Tokens<'_>) -> Result<TermsTree, GrammarRefusal>
        requires nests { Nests self.now.depth (F.pre self.now.line) (F.post self.now.line) }
        requires open { 0 < self.now.depth }
        ensures { Reads (arguments (inside self.now.depth) tokens.old) result tokens.new }
    {
        let level = Level {
            alloc: self.alloc,
            depth: self.depth - 1,
            line: self.line,
        };
        level.arguments(tokens)
    }

    /// binds
    pub fn inner_binds(&self, tokens: &mut Tokens<'_>) -> Result<BindsTree, GrammarRefusal>
        requires nests { Nests self.now.depth (F.pre self.now.line) (F.post self.now.line) }
        requires open { 0 < self.now.depth }
        ensures { Reads ((inside self.now.depth).binds tokens.old) result tokens.new }
    {
        let inner = Grammar {
            alloc: self.alloc,
            depth: self.depth - 1,
            line: self.line,
        };
        inner.binds(tokens)
    }

    /// ranges "with" term
    pub fn ranged(
        &self,
        tokens: &mut Tokens<'_>,
    ) -> Result<(RangesTree, Boxed<TermTree>), GrammarRefusal>
        requires nests { Nests self.now.depth (F.pre self.now.line) (F.post self.now.line) }
        requires open { 0 < self.now.depth }
        ensures { Reads (ranged (inside self.now.depth) tokens.old) result tokens.new }
    {
        let ranges = self.ranges(tokens)?;
        let body = self.after_word(tokens, "with")?;
        Ok((ranges, body))
    }

    /// ranges
    fn ranges(&self, tokens: &mut Tokens<'_>) -> Result<RangesTree, GrammarRefusal>
        requires open { 0 < self.now.depth }
        ensures { Reads ((inside self.now.depth).ranges tokens.old) result tokens.new }
    {
        ranges(self.alloc, tokens, self.depth - 1)
    }
}
