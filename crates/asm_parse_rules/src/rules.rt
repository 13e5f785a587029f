//! Rules: a method for each line of the grammar. It takes the reader of the rules one construct
//! deeper as a value.
ghost use Rattle.std.specs.Prelude.{◌≡◌, ◌<◌, drop, OnOk};
ghost use Rattle.asm_grammar.specs.Parser.{sees};
ghost use Rattle.asm_syntax.specs.Rules.{use_of};
ghost use Rattle.asm_syntax.specs.Terms as g;
ghost use Rattle.asm_parse_cursor.specs.Reads.{Reads, ReadsAs};
ghost use Rattle.asm_parse_theory.specs.Firsts.{among, first_rule, starts_rule};
ghost use Rattle.asm_parse_theory.specs.Terms as t;
ghost use Rattle.asm_parse_theory.specs.Rules as reading;
ghost use Rattle.asm_parse_rules.specs.Lines.{compound, line, scoped};
ghost use Rattle.asm_parse_rules.specs.Lines.{maybe_rule_after, more_rules, rule_after};
ghost use Rattle.asm_parse_rules.specs.Lines.{opens, opens_bracket};
ghost use Rattle.asm_parse_rules.specs.Nests.{Nests};
ghost use Rattle.asm_parse_rules.specs.Parts.{seen_use, use_part};

use asm_parse_cursor::{GrammarRefusal, Tokens};
use asm_parse_domains::{identifier, ranges};
use asm_parse_terms::{arguments, binds, call, starts_term, term};
use asm_syntax::{BindsTree, Boxed, List, RangesTree, RuleTree, Span, TermTree, TermsTree, Token};
use std::alloc::Global;

/// rule, in which at most so many constructs are open at once.
pub fn rule(
    alloc: Global,
    tokens: &mut Tokens<'_>,
    depth: usize,
) -> Result<Boxed<RuleTree>, GrammarRefusal>
    ensures { Reads (reading.rule depth tokens.old) result tokens.new }
{
    Grammar { alloc, depth, rule }.form(tokens)
}

/// The rules of a conditional: where its guard holds, and else.
type Branches = (Boxed<RuleTree>, Option<Boxed<RuleTree>>);

/// What is done with a name.
#[derive(Drop)]
enum Use {
    /// A macro rule is called, with these arguments.
    Calls(Option<TermsTree>),
    /// A function is updated, at these arguments to this value.
    Updates(Option<TermsTree>, Boxed<TermTree>),
}

/// The rule that uses a name.
fn rule_of(name: Token, used: Use, span: Span) -> RuleTree
    ensures { result ≡ use_of span (name, seen_use used) }
{
    match used {
        Use::Calls(args) => RuleTree::Call(name, args, span),
        Use::Updates(args, value) => RuleTree::Update(name, args, value, span),
    }
}

#[derive(Clone, Copy)]
pub(crate) struct Grammar<F> {
    pub(crate) alloc: Global,
    /// How many more constructs may be open.
    pub(crate) depth: usize,
    /// Reads a rule where at most so many constructs are open.
    pub(crate) rule: F,
}

/// Whether a rule begins with the next token.
fn starts_rule(tokens: &Tokens<'_>) -> bool
    ensures { result ≡ sees starts_rule tokens.now }
{
    tokens.sees_word("skip")
        || tokens.sees_id()
        || tokens.sees_word("par")
        || tokens.sees_word("seq")
        || starts_construct(tokens)
}

/// Whether the next token is one of the other words with which a rule begins.
fn starts_construct(tokens: &Tokens<'_>) -> bool
    ensures { result ≡ sees (among (drop 4 first_rule)) tokens.now }
{
    tokens.sees_word("if")
        || tokens.sees_word("forall")
        || tokens.sees_word("choose")
        || tokens.sees_word("let")
        || tokens.sees_word("switch")
        || tokens.sees_word("extend")
}

impl<F: Fn(Global, &mut Tokens<'_>, usize) -> Result<Boxed<RuleTree>, GrammarRefusal>> Grammar<F> {
    // ---- what stands inside a construct

    /// Takes this quoted word, which opens a construct, if one more may be open.
    pub(crate) fn enter<'a>(
        &self,
        tokens: &mut Tokens<'a>,
        word: &str,
    ) -> Result<&'a Token, GrammarRefusal>
        ensures reads { ReadsAs (λ t. t.now) (opens self.now.depth word.now tokens.old) result tokens.new }
        ensures open { OnOk result (0 < self.now.depth) }
    {
        tokens.enter_word(self.depth > 0, word)
    }

    /// Takes `[`, which opens a construct, if one more may be open.
    fn open_bracket<'a>(&self, tokens: &mut Tokens<'a>) -> Result<&'a Token, GrammarRefusal>
        ensures reads { ReadsAs (λ t. t.now) (opens_bracket self.now.depth tokens.old) result tokens.new }
        ensures open { OnOk result (0 < self.now.depth) }
    {
        tokens.enter_sign(self.depth > 0, "[")
    }

    /// rule
    pub(crate) fn inside(&self, tokens: &mut Tokens<'_>) -> Result<Boxed<RuleTree>, GrammarRefusal>
        requires nests { Nests self.now.depth (F.pre self.now.rule) (F.post self.now.rule) }
        requires open { 0 < self.now.depth }
        ensures { Reads (reading.inside self.now.depth tokens.old) result tokens.new }
    {
        (self.rule)(self.alloc, tokens, self.depth - 1)
    }

    /// term
    pub(crate) fn term(&self, tokens: &mut Tokens<'_>) -> Result<Boxed<TermTree>, GrammarRefusal>
        requires open { 0 < self.now.depth }
        ensures { Reads ((t.inside self.now.depth).line g.term tokens.old) result tokens.new }
    {
        term(self.alloc, tokens, self.depth - 1)
    }

    /// term {"," term}
    pub(crate) fn arguments(&self, tokens: &mut Tokens<'_>) -> Result<TermsTree, GrammarRefusal>
        requires open { 0 < self.now.depth }
        ensures { Reads (t.arguments (t.inside self.now.depth) tokens.old) result tokens.new }
    {
        arguments(self.alloc, tokens, self.depth - 1)
    }

    /// ranges
    pub(crate) fn ranges(&self, tokens: &mut Tokens<'_>) -> Result<RangesTree, GrammarRefusal>
        requires open { 0 < self.now.depth }
        ensures { Reads ((t.inside self.now.depth).ranges tokens.old) result tokens.new }
    {
        ranges(self.alloc, tokens, self.depth - 1)
    }

    /// binds
    pub(crate) fn binds(&self, tokens: &mut Tokens<'_>) -> Result<BindsTree, GrammarRefusal>
        requires open { 0 < self.now.depth }
        ensures { Reads ((t.inside self.now.depth).binds tokens.old) result tokens.new }
    {
        binds(self.alloc, tokens, self.depth - 1)
    }

    /// This quoted word, and a rule.
    pub(crate) fn after(
        &self,
        tokens: &mut Tokens<'_>,
        word: &str,
    ) -> Result<Boxed<RuleTree>, GrammarRefusal>
        requires nests { Nests self.now.depth (F.pre self.now.rule) (F.post self.now.rule) }
        requires open { 0 < self.now.depth }
        ensures { Reads (rule_after self.now.depth word.now tokens.old) result tokens.new }
    {
        let _word = tokens.expect_word(word)?;
        self.inside(tokens)
    }

    /// This quoted word and a rule, or nothing.
    pub(crate) fn maybe_after(
        &self,
        tokens: &mut Tokens<'_>,
        word: &str,
    ) -> Result<Option<Boxed<RuleTree>>, GrammarRefusal>
        requires nests { Nests self.now.depth (F.pre self.now.rule) (F.post self.now.rule) }
        requires open { 0 < self.now.depth }
        ensures { Reads (maybe_rule_after self.now.depth word.now tokens.old) result tokens.new }
    {
        if !tokens.sees_word(word) {
            return Ok(None);
        }
        let rule = self.after(tokens, word)?;
        Ok(Some(rule))
    }

    // ---- the lines

    /// rule
    #[tactic(auto, using(crate::proofs::Named::rule_form_is))]
    fn form(&self, tokens: &mut Tokens<'_>) -> Result<Boxed<RuleTree>, GrammarRefusal>
        requires nests { Nests self.now.depth (F.pre self.now.rule) (F.post self.now.rule) }
        ensures { Reads (line reading.rule_form self.now.depth tokens.old) result tokens.new }
    {
        if tokens.sees_word("skip") {
            self.skip(tokens)
        } else if tokens.sees_id() {
            self.call_or_update(tokens)
        } else if tokens.sees_word("par") {
            self.par_rule(tokens)
        } else {
            self.compound(tokens)
        }
    }

    /// rule, where it is no `skip`, and begins with no name and no `par`
    #[tactic(auto, unfolding(crate::specs::Lines::compound))]
    fn compound(&self, tokens: &mut Tokens<'_>) -> Result<Boxed<RuleTree>, GrammarRefusal>
        requires nests { Nests self.now.depth (F.pre self.now.rule) (F.post self.now.rule) }
        ensures { Reads (line compound self.now.depth tokens.old) result tokens.new }
    {
        if tokens.sees_word("seq") {
            self.seq_rule(tokens)
        } else if tokens.sees_word("if") {
            self.if_rule(tokens)
        } else if tokens.sees_word("forall") {
            self.forall(tokens)
        } else {
            self.scoped(tokens)
        }
    }

    /// rule, where it begins with `choose`, `let`, `switch` or `extend`
    #[tactic(auto, unfolding(crate::specs::Lines::scoped))]
    fn scoped(&self, tokens: &mut Tokens<'_>) -> Result<Boxed<RuleTree>, GrammarRefusal>
        requires nests { Nests self.now.depth (F.pre self.now.rule) (F.post self.now.rule) }
        ensures { Reads (line scoped self.now.depth tokens.old) result tokens.new }
    {
        if tokens.sees_word("choose") {
            self.choose_rule(tokens)
        } else if tokens.sees_word("let") {
            self.let_rule(tokens)
        } else if tokens.sees_word("switch") {
            self.switch_rule(tokens)
        } else {
            self.extend_rule(tokens)
        }
    }

    /// "skip"
    #[tactic(auto, unfolding(asm_parse_theory::specs::Rules::skip))]
    fn skip(&self, tokens: &mut Tokens<'_>) -> Result<Boxed<RuleTree>, GrammarRefusal>
        ensures { Reads (line reading.skip self.now.depth tokens.old) result tokens.new }
    {
        let before = tokens.rest();
        let _skip = tokens.expect_word("skip")?;
        let rule = RuleTree::Skip(tokens.span_since(before));
        Ok(Boxed::new(self.alloc, rule)?)
    }

    /// ID "[" [term {"," term}] "]", and ID ["(" term {"," term} ")"] ":=" term
    #[tactic(auto, unfolding(asm_parse_theory::specs::Rules::call_or_update))]
    fn call_or_update(&self, tokens: &mut Tokens<'_>) -> Result<Boxed<RuleTree>, GrammarRefusal>
        ensures { Reads (line reading.call_or_update self.now.depth tokens.old) result tokens.new }
    {
        let before = tokens.rest();
        let name = identifier(self.alloc, tokens)?;
        let used = self.used(tokens)?;
        let rule = rule_of(name, used, tokens.span_since(before));
        Ok(Boxed::new(self.alloc, rule)?)
    }

    /// "[" [term {"," term}] "]", and ["(" term {"," term} ")"] ":=" term
    fn used(&self, tokens: &mut Tokens<'_>) -> Result<Use, GrammarRefusal>
        ensures { ReadsAs seen_use (use_part self.now.depth tokens.old) result tokens.new }
    {
        if tokens.sees_sign("[") {
            let args = self.brackets(tokens)?;
            Ok(Use::Calls(args))
        } else {
            let (args, value) = self.assigned(tokens)?;
            Ok(Use::Updates(args, value))
        }
    }

    /// "[" [term {"," term}] "]"
    fn brackets(&self, tokens: &mut Tokens<'_>) -> Result<Option<TermsTree>, GrammarRefusal>
        ensures { Reads (line reading.call_part self.now.depth tokens.old) result tokens.new }
    {
        let _bracket = self.open_bracket(tokens)?;
        let args = match self.maybe_arguments(tokens) {
            Ok(args) => args,
            Err(why) => return Err(why),
        };
        match tokens.expect_sign("]") {
            Ok(_end) => Ok(args),
            Err(other) => Err(other),
        }
    }

    /// [term {"," term}]
    fn maybe_arguments(&self, tokens: &mut Tokens<'_>) -> Result<Option<TermsTree>, GrammarRefusal>
        requires open { 0 < self.now.depth }
        ensures { Reads (line reading.arguments_part self.now.depth tokens.old) result tokens.new }
    {
        if !starts_term(tokens) {
            return Ok(None);
        }
        let args = self.arguments(tokens)?;
        Ok(Some(args))
    }

    /// ["(" term {"," term} ")"] ":=" term
    fn assigned(
        &self,
        tokens: &mut Tokens<'_>,
    ) -> Result<(Option<TermsTree>, Boxed<TermTree>), GrammarRefusal>
        ensures { Reads (line reading.update_part self.now.depth tokens.old) result tokens.new }
    {
        let args = self.maybe_call(tokens)?;
        let _assigns = tokens.expect_sign(":=")?;
        let value = term(self.alloc, tokens, self.depth)?;
        Ok((args, value))
    }

    /// ["(" term {"," term} ")"]
    fn maybe_call(&self, tokens: &mut Tokens<'_>) -> Result<Option<TermsTree>, GrammarRefusal>
        ensures { Reads (line reading.location_part self.now.depth tokens.old) result tokens.new }
    {
        if !tokens.sees_sign("(") {
            return Ok(None);
        }
        let args = call(self.alloc, tokens, self.depth)?;
        Ok(Some(args))
    }

    /// "par" rule {rule} "endpar"
    #[tactic(auto, unfolding(asm_parse_theory::specs::Rules::par_rule))]
    fn par_rule(&self, tokens: &mut Tokens<'_>) -> Result<Boxed<RuleTree>, GrammarRefusal>
        requires nests { Nests self.now.depth (F.pre self.now.rule) (F.post self.now.rule) }
        ensures { Reads (line reading.par_rule self.now.depth tokens.old) result tokens.new }
    {
        let before = tokens.rest();
        let _par = self.enter(tokens, "par")?;
        let (first, others) = self.some_rules(tokens)?;
        let _endpar = tokens.expect_word("endpar")?;
        let rule = RuleTree::Par(first, others, tokens.span_since(before));
        Ok(Boxed::new(self.alloc, rule)?)
    }

    /// "seq" rule {rule} "endseq"
    #[tactic(auto, unfolding(asm_parse_theory::specs::Rules::seq_rule))]
    fn seq_rule(&self, tokens: &mut Tokens<'_>) -> Result<Boxed<RuleTree>, GrammarRefusal>
        requires nests { Nests self.now.depth (F.pre self.now.rule) (F.post self.now.rule) }
        ensures { Reads (line reading.seq_rule self.now.depth tokens.old) result tokens.new }
    {
        let before = tokens.rest();
        let _seq = self.enter(tokens, "seq")?;
        let (first, others) = self.some_rules(tokens)?;
        let _endseq = tokens.expect_word("endseq")?;
        let rule = RuleTree::Seq(first, others, tokens.span_since(before));
        Ok(Boxed::new(self.alloc, rule)?)
    }

    /// rule {rule}
    fn some_rules(
        &self,
        tokens: &mut Tokens<'_>,
    ) -> Result<(Boxed<RuleTree>, List<Boxed<RuleTree>>), GrammarRefusal>
        requires nests { Nests self.now.depth (F.pre self.now.rule) (F.post self.now.rule) }
        requires open { 0 < self.now.depth }
        ensures { Reads (line reading.some_rules self.now.depth tokens.old) result tokens.new }
    {
        let first = self.inside(tokens)?;
        let others = self.other_rules(tokens)?;
        Ok((first, others))
    }

    /// {rule}
    fn other_rules(&self, tokens: &mut Tokens<'_>) -> Result<List<Boxed<RuleTree>>, GrammarRefusal>
        requires nests { Nests self.now.depth (F.pre self.now.rule) (F.post self.now.rule) }
        requires open { 0 < self.now.depth }
        ensures { Reads (line reading.other_rules self.now.depth tokens.old) result tokens.new }
    {
        if !starts_rule(tokens) {
            return Ok(List::new(self.alloc));
        }
        let first = self.inside(tokens)?;
        self.more_rules(tokens, List::only(self.alloc, first)?)
    }

    /// Those found, and each that follows them.
    fn more_rules(
        &self,
        tokens: &mut Tokens<'_>,
        mut found: List<Boxed<RuleTree>>,
    ) -> Result<List<Boxed<RuleTree>>, GrammarRefusal>
        requires nests { Nests self.now.depth (F.pre self.now.rule) (F.post self.now.rule) }
        requires open { 0 < self.now.depth }
        ensures { Reads (more_rules self.now.depth found tokens.old) result tokens.new }
    {
        for _turn in 0..tokens.left() {
            if !starts_rule(tokens) {
                return Ok(found);
            }
            let one = match self.inside(tokens) {
                Ok(one) => one,
                Err(why) => return Err(why),
            };
            found.push(one)?;
        }
        Ok(found)
    }

    /// "if" term "then" rule ["else" rule] "endif"
    #[tactic(auto, unfolding(asm_parse_theory::specs::Rules::if_rule))]
    fn if_rule(&self, tokens: &mut Tokens<'_>) -> Result<Boxed<RuleTree>, GrammarRefusal>
        requires nests { Nests self.now.depth (F.pre self.now.rule) (F.post self.now.rule) }
        ensures { Reads (line reading.if_rule self.now.depth tokens.old) result tokens.new }
    {
        let before = tokens.rest();
        let _if = self.enter(tokens, "if")?;
        let (guard, (first, other)) = self.decided(tokens)?;
        let _endif = tokens.expect_word("endif")?;
        let rule = RuleTree::If(guard, first, other, tokens.span_since(before));
        Ok(Boxed::new(self.alloc, rule)?)
    }

    /// term "then" rule ["else" rule]
    fn decided(
        &self,
        tokens: &mut Tokens<'_>,
    ) -> Result<(Boxed<TermTree>, Branches), GrammarRefusal>
        requires nests { Nests self.now.depth (F.pre self.now.rule) (F.post self.now.rule) }
        requires open { 0 < self.now.depth }
        ensures { Reads (line reading.if_body self.now.depth tokens.old) result tokens.new }
    {
        let guard = self.term(tokens)?;
        let branches = self.branches(tokens)?;
        Ok((guard, branches))
    }

    /// "then" rule ["else" rule]
    fn branches(&self, tokens: &mut Tokens<'_>) -> Result<Branches, GrammarRefusal>
        requires nests { Nests self.now.depth (F.pre self.now.rule) (F.post self.now.rule) }
        requires open { 0 < self.now.depth }
        ensures { Reads (line reading.if_branches self.now.depth tokens.old) result tokens.new }
    {
        let first = self.after(tokens, "then")?;
        let other = self.maybe_after(tokens, "else")?;
        Ok((first, other))
    }
}
