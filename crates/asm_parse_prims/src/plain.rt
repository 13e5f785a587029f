//! Constants and variables as terms.
ghost use Rattle.asm_parse_cursor.specs.Reads.{Reads};
ghost use Rattle.asm_parse_theory.specs.Terms as reading;
ghost use Rattle.asm_parse_theory.specs.Terms.{within};

use crate::prims::Prims;
use asm_parse_cursor::{GrammarRefusal, Tokens};
use asm_parse_parts::Line;
use asm_syntax::{Boxed, TermTree};
use std::alloc::Global;

impl<
    F: Fn(Global, &mut Tokens<'_>, usize, Line) -> Result<Boxed<TermTree>, GrammarRefusal> + Copy,
> Prims<F> {
    /// NUMBER | STRING | "true" | "false" | "undef" | VAR
    #[tactic(auto, unfolding(asm_parse_theory::specs::Terms::plain))]
    pub(crate) fn plain(&self, tokens: &mut Tokens<'_>) -> Result<Boxed<TermTree>, GrammarRefusal>
        ensures { Reads (within self.now.at.depth reading.plain tokens.old) result tokens.new }
    {
        if tokens.sees_number() {
            self.number(tokens)
        } else if tokens.sees_chars() {
            self.chars(tokens)
        } else if tokens.sees_word("true") {
            self.truth(tokens)
        } else if tokens.sees_word("false") {
            self.falsity(tokens)
        } else if tokens.sees_word("undef") {
            self.undef(tokens)
        } else {
            self.variable(tokens)
        }
    }

    /// NUMBER
    fn number(&self, tokens: &mut Tokens<'_>) -> Result<Boxed<TermTree>, GrammarRefusal>
        ensures { Reads (reading.number_term tokens.old) result tokens.new }
    {
        let before = tokens.rest();
        let token = tokens.expect_number()?;
        let span = tokens.span_since(before);
        let token = token.copy(self.at.alloc)?;
        Ok(Boxed::new(self.at.alloc, TermTree::Number(token, span))?)
    }

    /// STRING
    fn chars(&self, tokens: &mut Tokens<'_>) -> Result<Boxed<TermTree>, GrammarRefusal>
        ensures { Reads (reading.chars_term tokens.old) result tokens.new }
    {
        let before = tokens.rest();
        let token = tokens.expect_chars()?;
        let span = tokens.span_since(before);
        let token = token.copy(self.at.alloc)?;
        Ok(Boxed::new(self.at.alloc, TermTree::Chars(token, span))?)
    }

    /// "true"
    fn truth(&self, tokens: &mut Tokens<'_>) -> Result<Boxed<TermTree>, GrammarRefusal>
        ensures { Reads (reading.true_term tokens.old) result tokens.new }
    {
        let before = tokens.rest();
        let _true = tokens.expect_word("true")?;
        let span = tokens.span_since(before);
        Ok(Boxed::new(self.at.alloc, TermTree::True(span))?)
    }

    /// "false"
    fn falsity(&self, tokens: &mut Tokens<'_>) -> Result<Boxed<TermTree>, GrammarRefusal>
        ensures { Reads (reading.false_term tokens.old) result tokens.new }
    {
        let before = tokens.rest();
        let _false = tokens.expect_word("false")?;
        let span = tokens.span_since(before);
        Ok(Boxed::new(self.at.alloc, TermTree::False(span))?)
    }

    /// "undef"
    fn undef(&self, tokens: &mut Tokens<'_>) -> Result<Boxed<TermTree>, GrammarRefusal>
        ensures { Reads (reading.undef_term tokens.old) result tokens.new }
    {
        let before = tokens.rest();
        let _undef = tokens.expect_word("undef")?;
        let span = tokens.span_since(before);
        Ok(Boxed::new(self.at.alloc, TermTree::Undef(span))?)
    }

    /// VAR
    fn variable(&self, tokens: &mut Tokens<'_>) -> Result<Boxed<TermTree>, GrammarRefusal>
        ensures { Reads (reading.variable_term tokens.old) result tokens.new }
    {
        let before = tokens.rest();
        let token = tokens.expect_variable()?;
        let span = tokens.span_since(before);
        let token = token.copy(self.at.alloc)?;
        Ok(Boxed::new(self.at.alloc, TermTree::Var(token, span))?)
    }
}
