//! The lines of terms with operators: a method for each line of the grammar.
ghost use Rattle.std.specs.Prelude.{◌<◌, OnOk};
ghost use Rattle.asm_parse_cursor.specs.Reads.{Reads, ReadsAs, Lends};
ghost use Rattle.asm_parse_theory.specs.Terms as reading;
ghost use Rattle.asm_parse_theory.specs.Terms.{within};
ghost use Rattle.asm_parse_parts.specs.Lines.{line_of};
ghost use Rattle.asm_parse_parts.specs.Nests.{Nests};
ghost use Rattle.asm_parse_terms.specs.Lines.{line_at, pair_of, enter_one, step};
ghost use Rattle.asm_parse_terms.specs.Lines.{maybe_step, more_steps};

use crate::heights::fits;
use crate::operators::Operators;
use crate::trees::{joined, prefix};
use asm_parse_cursor::{GrammarRefusal, Tokens};
use asm_parse_parts::{Grammar, Line};
use asm_parse_prims::Prims;
use asm_syntax::{Boxed, TermTree, Token};
use std::alloc::Global;

/// The lines of terms. Right operands are read by `at`, one construct deeper.
#[derive(Clone, Copy)]
pub(crate) struct Lines<F> {
    /// How many constructs may be open, and what reads a line inside one.
    pub(crate) at: Grammar<F>,
}

impl<
    F: Fn(Global, &mut Tokens<'_>, usize, Line) -> Result<Boxed<TermTree>, GrammarRefusal> + Copy,
> Lines<F> {
    /// One of the lines that are one construct deeper in another.
    #[tactic(auto, unfolding(asm_parse_theory::specs::Terms::line_form))]
    pub(crate) fn form(
        &self,
        tokens: &mut Tokens<'_>,
        which: Line,
    ) -> Result<Boxed<TermTree>, GrammarRefusal>
        requires line { Nests self.now.at.depth (F.pre self.now.at.line) (F.post self.now.at.line) }
        ensures { Reads (line_at self.now.at.depth (line_of which) tokens.old) result tokens.new }
    {
        match which {
            Line::Term => self.iff(tokens),
            Line::Imp => self.imp(tokens),
            Line::And => self.and(tokens),
            Line::Neg => self.neg(tokens),
            Line::Sum => self.sum(tokens),
            Line::Prod => self.prod(tokens),
            Line::Sign => self.sign(tokens),
            Line::Quantifier => Prims { at: self.at }.quantified(tokens),
        }
    }

    /// sign = "-" sign | prim
    #[tactic(auto, unfolding(asm_parse_theory::specs::Terms::sign_form))]
    fn sign(&self, tokens: &mut Tokens<'_>) -> Result<Boxed<TermTree>, GrammarRefusal>
        requires line { Nests self.now.at.depth (F.pre self.now.at.line) (F.post self.now.at.line) }
        ensures { Reads (within self.now.at.depth reading.sign_form tokens.old) result tokens.new }
    {
        if tokens.sees_sign("-") {
            self.negative(tokens)
        } else {
            Prims { at: self.at }.prim(tokens)
        }
    }

    /// "-" sign
    fn negative(&self, tokens: &mut Tokens<'_>) -> Result<Boxed<TermTree>, GrammarRefusal>
        requires line { Nests self.now.at.depth (F.pre self.now.at.line) (F.post self.now.at.line) }
        ensures { Reads (within self.now.at.depth reading.negative tokens.old) result tokens.new }
    {
        let before = tokens.rest();
        let minus = self.at.enter_sign(tokens, "-")?;
        let operand = self.at.inside(tokens, Line::Sign)?;
        let span = tokens.span_since(before);
        Ok(prefix(self.at.alloc, span, minus, operand)?)
    }

    /// prod = sign {("*" | "div" | "mod") sign}
    #[tactic(auto, unfolding(asm_parse_theory::specs::Terms::prod_form))]
    fn prod(&self, tokens: &mut Tokens<'_>) -> Result<Boxed<TermTree>, GrammarRefusal>
        requires line { Nests self.now.at.depth (F.pre self.now.at.line) (F.post self.now.at.line) }
        ensures { Reads (within self.now.at.depth reading.prod_form tokens.old) result tokens.new }
    {
        let left = self.sign(tokens)?;
        self.chain(tokens, left, Operators::Product)
    }

    /// sum = prod {("+" | "-") prod}
    #[tactic(auto, unfolding(asm_parse_theory::specs::Terms::sum_form))]
    fn sum(&self, tokens: &mut Tokens<'_>) -> Result<Boxed<TermTree>, GrammarRefusal>
        requires line { Nests self.now.at.depth (F.pre self.now.at.line) (F.post self.now.at.line) }
        ensures { Reads (within self.now.at.depth reading.sum_form tokens.old) result tokens.new }
    {
        let left = self.prod(tokens)?;
        self.chain(tokens, left, Operators::Sum)
    }

    /// rel = sum [("=" | "!=" | "<" | "<=" | ">" | ">=" | "in" | "notin") sum]
    #[tactic(auto, unfolding(asm_parse_theory::specs::Terms::rel_form))]
    fn rel(&self, tokens: &mut Tokens<'_>) -> Result<Boxed<TermTree>, GrammarRefusal>
        requires line { Nests self.now.at.depth (F.pre self.now.at.line) (F.post self.now.at.line) }
        ensures { Reads (within self.now.at.depth reading.rel_form tokens.old) result tokens.new }
    {
        let left = self.sum(tokens)?;
        self.once(tokens, left, Operators::Relation)
    }

    /// neg = "not" neg | rel
    #[tactic(auto, unfolding(asm_parse_theory::specs::Terms::neg_form))]
    fn neg(&self, tokens: &mut Tokens<'_>) -> Result<Boxed<TermTree>, GrammarRefusal>
        requires line { Nests self.now.at.depth (F.pre self.now.at.line) (F.post self.now.at.line) }
        ensures { Reads (within self.now.at.depth reading.neg_form tokens.old) result tokens.new }
    {
        if tokens.sees_word("not") {
            self.negation(tokens)
        } else {
            self.rel(tokens)
        }
    }

    /// "not" neg
    fn negation(&self, tokens: &mut Tokens<'_>) -> Result<Boxed<TermTree>, GrammarRefusal>
        requires line { Nests self.now.at.depth (F.pre self.now.at.line) (F.post self.now.at.line) }
        ensures { Reads (within self.now.at.depth reading.negation tokens.old) result tokens.new }
    {
        let before = tokens.rest();
        let not = self.at.enter_word(tokens, "not")?;
        let operand = self.at.inside(tokens, Line::Neg)?;
        let span = tokens.span_since(before);
        Ok(prefix(self.at.alloc, span, not, operand)?)
    }

    /// and = neg {"and" neg}
    #[tactic(auto, unfolding(asm_parse_theory::specs::Terms::and_form))]
    fn and(&self, tokens: &mut Tokens<'_>) -> Result<Boxed<TermTree>, GrammarRefusal>
        requires line { Nests self.now.at.depth (F.pre self.now.at.line) (F.post self.now.at.line) }
        ensures { Reads (within self.now.at.depth reading.and_form tokens.old) result tokens.new }
    {
        let left = self.neg(tokens)?;
        self.chain(tokens, left, Operators::And)
    }

    /// or = and {("or" | "xor") and}
    #[tactic(auto, unfolding(asm_parse_theory::specs::Terms::or_form))]
    fn or(&self, tokens: &mut Tokens<'_>) -> Result<Boxed<TermTree>, GrammarRefusal>
        requires line { Nests self.now.at.depth (F.pre self.now.at.line) (F.post self.now.at.line) }
        ensures { Reads (within self.now.at.depth reading.or_form tokens.old) result tokens.new }
    {
        let left = self.and(tokens)?;
        self.chain(tokens, left, Operators::Or)
    }

    /// imp = or ["implies" imp]
    #[tactic(auto, unfolding(asm_parse_theory::specs::Terms::imp_form))]
    fn imp(&self, tokens: &mut Tokens<'_>) -> Result<Boxed<TermTree>, GrammarRefusal>
        requires line { Nests self.now.at.depth (F.pre self.now.at.line) (F.post self.now.at.line) }
        ensures { Reads (within self.now.at.depth reading.imp_form tokens.old) result tokens.new }
    {
        let left = self.or(tokens)?;
        self.once(tokens, left, Operators::Implies)
    }

    /// term = imp {"iff" imp}
    #[tactic(auto, unfolding(asm_parse_theory::specs::Terms::term_form))]
    fn iff(&self, tokens: &mut Tokens<'_>) -> Result<Boxed<TermTree>, GrammarRefusal>
        requires line { Nests self.now.at.depth (F.pre self.now.at.line) (F.post self.now.at.line) }
        ensures { Reads (within self.now.at.depth reading.term_form tokens.old) result tokens.new }
    {
        let left = self.imp(tokens)?;
        self.chain(tokens, left, Operators::Iff)
    }

    /// Takes one of the operators, which opens a construct, if one more may be open.
    fn enter<'a>(
        &self,
        tokens: &mut Tokens<'a>,
        operators: Operators,
    ) -> Result<&'a Token, GrammarRefusal>
        ensures reads { Lends (enter_one self.now.at.depth operators tokens.old) result tokens.new }
        ensures open { OnOk result (0 < self.now.at.depth) }
    {
        operators.enter(tokens, self.at.depth > 0)
    }

    /// One of the operators, which opens a construct, and its right operand.
    fn step<'a>(
        &self,
        tokens: &mut Tokens<'a>,
        operators: Operators,
    ) -> Result<(&'a Token, Boxed<TermTree>), GrammarRefusal>
        requires line { Nests self.now.at.depth (F.pre self.now.at.line) (F.post self.now.at.line) }
        ensures { ReadsAs pair_of (step self.now.at.depth operators tokens.old) result tokens.new }
    {
        let operator = self.enter(tokens, operators)?;
        let right = self.at.inside(tokens, operators.right())?;
        Ok((operator, right))
    }

    /// The operator that follows a left operand, with its right operand; or the left operand alone.
    fn once(
        &self,
        tokens: &mut Tokens<'_>,
        left: Boxed<TermTree>,
        operators: Operators,
    ) -> Result<Boxed<TermTree>, GrammarRefusal>
        requires line { Nests self.now.at.depth (F.pre self.now.at.line) (F.post self.now.at.line) }
        ensures { Reads (maybe_step self.now.at.depth operators left tokens.old) result tokens.new }
    {
        if !operators.are_next(tokens) {
            return Ok(left);
        }
        if !fits(left.get()) {
            return Err(GrammarRefusal::TooDeep);
        }
        let (operator, right) = self.step(tokens, operators)?;
        Ok(joined(self.at.alloc, left, operator, right)?)
    }

    /// The operators that follow a left operand, each with its right operand, grouped to the left.
    fn chain(
        &self,
        tokens: &mut Tokens<'_>,
        left: Boxed<TermTree>,
        operators: Operators,
    ) -> Result<Boxed<TermTree>, GrammarRefusal>
        requires line { Nests self.now.at.depth (F.pre self.now.at.line) (F.post self.now.at.line) }
        ensures { Reads (more_steps self.now.at.depth operators left tokens.old) result tokens.new }
    {
        let mut left = left;
        for _turn in 0..tokens.left() {
            if !operators.are_next(tokens) {
                return Ok(left);
            }
            if !fits(left.get()) {
                return Err(GrammarRefusal::TooDeep);
            }
            let (operator, right) = self.step(tokens, operators)?;
            left = joined(self.at.alloc, left, operator, right)?;
        }
        Ok(left)
    }
}
