//! The rules that bind variables or choose among cases: a method for each line of the grammar.
ghost use Rattle.std.specs.Prelude.{◌<◌};
ghost use Rattle.asm_parse_cursor.specs.Reads.{Reads};
ghost use Rattle.asm_parse_theory.specs.Rules as reading;
ghost use Rattle.asm_parse_rules.specs.Lines.{line, more_cases, more_variables};
ghost use Rattle.asm_parse_rules.specs.Nests.{Nests};
ghost use Rattle.asm_parse_rules.specs.Parts.{choose_parts, forall_parts};

use crate::rules::Grammar;
use asm_parse_cursor::{GrammarRefusal, Tokens};
use asm_parse_domains::{identifier, variable};
use asm_syntax::{Boxed, List, RangesTree, RuleCaseTree, RuleTree, TermTree, Token};
use std::alloc::Global;

/// The rule of a choice, and the one of `ifnone`.
type Chosen = (Boxed<RuleTree>, Option<Boxed<RuleTree>>);

/// The guard of a `forall`, and its rule.
type Guarded = (Option<Boxed<TermTree>>, Boxed<RuleTree>);

/// The guard of a choice, and its rules.
type Offered = (Option<Boxed<TermTree>>, Chosen);

/// The cases of a switch, and the rule of `otherwise`.
type Alternatives = (List<RuleCaseTree>, Option<Boxed<RuleTree>>);

impl<F: Fn(Global, &mut Tokens<'_>, usize) -> Result<Boxed<RuleTree>, GrammarRefusal>> Grammar<F> {
    /// "forall" ranges ["with" term] "do" rule
    #[tactic(auto, unfolding(asm_parse_theory::specs::Rules::forall))]
    pub(crate) fn forall(&self, tokens: &mut Tokens<'_>) -> Result<Boxed<RuleTree>, GrammarRefusal>
        requires nests { Nests self.now.depth (F.pre self.now.rule) (F.post self.now.rule) }
        ensures { Reads (line reading.forall self.now.depth tokens.old) result tokens.new }
    {
        let before = tokens.rest();
        let _forall = self.enter(tokens, "forall")?;
        let (ranges, (guard, body)) = self.forall_parts(tokens)?;
        let rule = RuleTree::Forall(ranges, guard, body, tokens.span_since(before));
        Ok(Boxed::new(self.alloc, rule)?)
    }

    /// ranges ["with" term] "do" rule
    fn forall_parts(&self, tokens: &mut Tokens<'_>) -> Result<(RangesTree, Guarded), GrammarRefusal>
        requires nests { Nests self.now.depth (F.pre self.now.rule) (F.post self.now.rule) }
        requires open { 0 < self.now.depth }
        ensures { Reads (forall_parts self.now.depth tokens.old) result tokens.new }
    {
        let ranges = self.ranges(tokens)?;
        let guarded = self.guarded(tokens)?;
        Ok((ranges, guarded))
    }

    /// ["with" term] "do" rule
    fn guarded(&self, tokens: &mut Tokens<'_>) -> Result<Guarded, GrammarRefusal>
        requires nests { Nests self.now.depth (F.pre self.now.rule) (F.post self.now.rule) }
        requires open { 0 < self.now.depth }
        ensures { Reads (line reading.forall_body self.now.depth tokens.old) result tokens.new }
    {
        let guard = self.guard(tokens)?;
        let body = self.after(tokens, "do")?;
        Ok((guard, body))
    }

    /// ["with" term]
    fn guard(&self, tokens: &mut Tokens<'_>) -> Result<Option<Boxed<TermTree>>, GrammarRefusal>
        requires open { 0 < self.now.depth }
        ensures { Reads (line reading.guard_part self.now.depth tokens.old) result tokens.new }
    {
        if !tokens.sees_word("with") {
            return Ok(None);
        }
        let _with = tokens.expect_word("with")?;
        let guard = self.term(tokens)?;
        Ok(Some(guard))
    }

    /// "choose" ranges ["with" term] "do" rule ["ifnone" rule]
    #[tactic(auto, unfolding(asm_parse_theory::specs::Rules::choose_rule))]
    pub(crate) fn choose_rule(
        &self,
        tokens: &mut Tokens<'_>,
    ) -> Result<Boxed<RuleTree>, GrammarRefusal>
        requires nests { Nests self.now.depth (F.pre self.now.rule) (F.post self.now.rule) }
        ensures { Reads (line reading.choose_rule self.now.depth tokens.old) result tokens.new }
    {
        let before = tokens.rest();
        let _choose = self.enter(tokens, "choose")?;
        let (ranges, (guard, (body, other))) = self.choose_parts(tokens)?;
        let rule = RuleTree::Choose(ranges, guard, body, other, tokens.span_since(before));
        Ok(Boxed::new(self.alloc, rule)?)
    }

    /// ranges ["with" term] "do" rule ["ifnone" rule]
    fn choose_parts(&self, tokens: &mut Tokens<'_>) -> Result<(RangesTree, Offered), GrammarRefusal>
        requires nests { Nests self.now.depth (F.pre self.now.rule) (F.post self.now.rule) }
        requires open { 0 < self.now.depth }
        ensures { Reads (choose_parts self.now.depth tokens.old) result tokens.new }
    {
        let ranges = self.ranges(tokens)?;
        let offered = self.offered(tokens)?;
        Ok((ranges, offered))
    }

    /// ["with" term] "do" rule ["ifnone" rule]
    fn offered(&self, tokens: &mut Tokens<'_>) -> Result<Offered, GrammarRefusal>
        requires nests { Nests self.now.depth (F.pre self.now.rule) (F.post self.now.rule) }
        requires open { 0 < self.now.depth }
        ensures { Reads (line reading.choose_body self.now.depth tokens.old) result tokens.new }
    {
        let guard = self.guard(tokens)?;
        let chosen = self.chosen(tokens)?;
        Ok((guard, chosen))
    }

    /// "do" rule ["ifnone" rule]
    fn chosen(&self, tokens: &mut Tokens<'_>) -> Result<Chosen, GrammarRefusal>
        requires nests { Nests self.now.depth (F.pre self.now.rule) (F.post self.now.rule) }
        requires open { 0 < self.now.depth }
        ensures { Reads (line reading.choose_branches self.now.depth tokens.old) result tokens.new }
    {
        let body = self.after(tokens, "do")?;
        let other = self.maybe_after(tokens, "ifnone")?;
        Ok((body, other))
    }

    /// "let" binds "in" rule "endlet"
    #[tactic(auto, unfolding(asm_parse_theory::specs::Rules::let_rule))]
    pub(crate) fn let_rule(
        &self,
        tokens: &mut Tokens<'_>,
    ) -> Result<Boxed<RuleTree>, GrammarRefusal>
        requires nests { Nests self.now.depth (F.pre self.now.rule) (F.post self.now.rule) }
        ensures { Reads (line reading.let_rule self.now.depth tokens.old) result tokens.new }
    {
        let before = tokens.rest();
        let _let = self.enter(tokens, "let")?;
        let binds = self.binds(tokens)?;
        let body = self.after(tokens, "in")?;
        let _endlet = tokens.expect_word("endlet")?;
        let rule = RuleTree::Let(binds, body, tokens.span_since(before));
        Ok(Boxed::new(self.alloc, rule)?)
    }

    /// "switch" term {"case" term ":" rule} ["otherwise" rule] "endswitch"
    #[tactic(auto, unfolding(asm_parse_theory::specs::Rules::switch_rule))]
    pub(crate) fn switch_rule(
        &self,
        tokens: &mut Tokens<'_>,
    ) -> Result<Boxed<RuleTree>, GrammarRefusal>
        requires nests { Nests self.now.depth (F.pre self.now.rule) (F.post self.now.rule) }
        ensures { Reads (line reading.switch_rule self.now.depth tokens.old) result tokens.new }
    {
        let before = tokens.rest();
        let _switch = self.enter(tokens, "switch")?;
        let (value, (cases, other)) = self.selected(tokens)?;
        let _endswitch = tokens.expect_word("endswitch")?;
        let rule = RuleTree::Switch(value, cases, other, tokens.span_since(before));
        Ok(Boxed::new(self.alloc, rule)?)
    }

    /// term {"case" term ":" rule} ["otherwise" rule]
    fn selected(
        &self,
        tokens: &mut Tokens<'_>,
    ) -> Result<(Boxed<TermTree>, Alternatives), GrammarRefusal>
        requires nests { Nests self.now.depth (F.pre self.now.rule) (F.post self.now.rule) }
        requires open { 0 < self.now.depth }
        ensures { Reads (line reading.switch_body self.now.depth tokens.old) result tokens.new }
    {
        let value = self.term(tokens)?;
        let alternatives = self.alternatives(tokens)?;
        Ok((value, alternatives))
    }

    /// {"case" term ":" rule} ["otherwise" rule]
    fn alternatives(&self, tokens: &mut Tokens<'_>) -> Result<Alternatives, GrammarRefusal>
        requires nests { Nests self.now.depth (F.pre self.now.rule) (F.post self.now.rule) }
        requires open { 0 < self.now.depth }
        ensures { Reads (line reading.alternatives self.now.depth tokens.old) result tokens.new }
    {
        let cases = self.cases(tokens)?;
        let other = self.maybe_after(tokens, "otherwise")?;
        Ok((cases, other))
    }

    /// {"case" term ":" rule}
    fn cases(&self, tokens: &mut Tokens<'_>) -> Result<List<RuleCaseTree>, GrammarRefusal>
        requires nests { Nests self.now.depth (F.pre self.now.rule) (F.post self.now.rule) }
        requires open { 0 < self.now.depth }
        ensures { Reads (line reading.cases_part self.now.depth tokens.old) result tokens.new }
    {
        if !tokens.sees_word("case") {
            return Ok(List::new(self.alloc));
        }
        let first = self.case(tokens)?;
        self.more_cases(tokens, List::only(self.alloc, first)?)
    }

    /// Those found, and each that follows them.
    fn more_cases(
        &self,
        tokens: &mut Tokens<'_>,
        mut found: List<RuleCaseTree>,
    ) -> Result<List<RuleCaseTree>, GrammarRefusal>
        requires nests { Nests self.now.depth (F.pre self.now.rule) (F.post self.now.rule) }
        requires open { 0 < self.now.depth }
        ensures { Reads (more_cases self.now.depth found tokens.old) result tokens.new }
    {
        for _turn in 0..tokens.left() {
            if !tokens.sees_word("case") {
                return Ok(found);
            }
            let one = match self.case(tokens) {
                Ok(one) => one,
                Err(why) => return Err(why),
            };
            found.push(one)?;
        }
        Ok(found)
    }

    /// "case" term ":" rule
    #[tactic(auto, unfolding(asm_parse_theory::specs::Rules::case))]
    fn case(&self, tokens: &mut Tokens<'_>) -> Result<RuleCaseTree, GrammarRefusal>
        requires nests { Nests self.now.depth (F.pre self.now.rule) (F.post self.now.rule) }
        requires open { 0 < self.now.depth }
        ensures { Reads (line reading.case self.now.depth tokens.old) result tokens.new }
    {
        let _case = tokens.expect_word("case")?;
        let (value, rule) = self.alternative(tokens)?;
        Ok(RuleCaseTree { value, rule })
    }

    /// term ":" rule
    fn alternative(
        &self,
        tokens: &mut Tokens<'_>,
    ) -> Result<(Boxed<TermTree>, Boxed<RuleTree>), GrammarRefusal>
        requires nests { Nests self.now.depth (F.pre self.now.rule) (F.post self.now.rule) }
        requires open { 0 < self.now.depth }
        ensures { Reads (line reading.case_body self.now.depth tokens.old) result tokens.new }
    {
        let value = self.term(tokens)?;
        let rule = self.after_colon(tokens)?;
        Ok((value, rule))
    }

    /// ":" rule
    fn after_colon(&self, tokens: &mut Tokens<'_>) -> Result<Boxed<RuleTree>, GrammarRefusal>
        requires nests { Nests self.now.depth (F.pre self.now.rule) (F.post self.now.rule) }
        requires open { 0 < self.now.depth }
        ensures { Reads (line reading.case_rule self.now.depth tokens.old) result tokens.new }
    {
        let _colon = tokens.expect_sign(":")?;
        self.inside(tokens)
    }

    /// "extend" ID "with" VAR {"," VAR} "do" rule
    #[tactic(auto, unfolding(asm_parse_theory::specs::Rules::extend_rule))]
    pub(crate) fn extend_rule(
        &self,
        tokens: &mut Tokens<'_>,
    ) -> Result<Boxed<RuleTree>, GrammarRefusal>
        requires nests { Nests self.now.depth (F.pre self.now.rule) (F.post self.now.rule) }
        ensures { Reads (line reading.extend_rule self.now.depth tokens.old) result tokens.new }
    {
        let before = tokens.rest();
        let _extend = self.enter(tokens, "extend")?;
        let domain = identifier(self.alloc, tokens)?;
        let (first, others) = self.variables(tokens)?;
        let body = self.after(tokens, "do")?;
        let rule = RuleTree::Extend(domain, first, others, body, tokens.span_since(before));
        Ok(Boxed::new(self.alloc, rule)?)
    }

    /// "with" VAR {"," VAR}
    fn variables(&self, tokens: &mut Tokens<'_>) -> Result<(Token, List<Token>), GrammarRefusal>
        ensures { Reads (reading.variables_part tokens.old) result tokens.new }
    {
        let _with = tokens.expect_word("with")?;
        let first = variable(self.alloc, tokens)?;
        let others = self.more_variables(tokens)?;
        Ok((first, others))
    }

    /// {"," VAR}
    fn more_variables(&self, tokens: &mut Tokens<'_>) -> Result<List<Token>, GrammarRefusal>
        ensures { Reads (reading.other_variables tokens.old) result tokens.new }
    {
        if !tokens.sees_sign(",") {
            return Ok(List::new(self.alloc));
        }
        let first = next_variable(self.alloc, tokens)?;
        self.further_variables(tokens, List::only(self.alloc, first)?)
    }

    /// Those found, and each that follows them.
    fn further_variables(
        &self,
        tokens: &mut Tokens<'_>,
        mut found: List<Token>,
    ) -> Result<List<Token>, GrammarRefusal>
        ensures { Reads (more_variables found tokens.old) result tokens.new }
    {
        for _turn in 0..tokens.left() {
            if !tokens.sees_sign(",") {
                return Ok(found);
            }
            let one = match next_variable(self.alloc, tokens) {
                Ok(one) => one,
                Err(why) => return Err(why),
            };
            found.push(one)?;
        }
        Ok(found)
    }
}

/// "," VAR
fn next_variable(alloc: Global, tokens: &mut Tokens<'_>) -> Result<Token, GrammarRefusal>
    ensures { Reads (reading.next_variable tokens.old) result tokens.new }
{
    let _comma = tokens.expect_sign(",")?;
    variable(alloc, tokens)
}
