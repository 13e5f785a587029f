//! Transition rules.
ghost use Rattle.std.specs.Prelude.{◌≡◌, OnOk};
ghost use Rattle.asm_syntax.specs.Canonical.{rule_words, guard_words};
ghost use Rattle.asm_print_terms.specs.Lines.{with_words};
ghost use Rattle.asm_print.specs.RuleParts as parts;

use asm_print_terms::{Writer, put_items, put_led, put_let, put_more_tokens, put_name, put_ranges};
use asm_syntax::{Boxed, RangesTree, RuleCaseTree, RuleTree, TermTree, TermsTree, Token};
use std::alloc::AllocError;

/// A rule.
#[cycle(rules)]
#[tactic(auto, using(crate::proofs::RuleSteps::rule_steps))]
pub(crate) fn put_rule(out: &mut Writer, rule: &RuleTree) -> Result<(), AllocError>
    ensures { OnOk result (out.new ≡ with_words out.old (rule_words rule.now)) }
{
    match rule {
        RuleTree::Skip(_) => out.put("skip"),
        RuleTree::Call(name, args, _) => { put_call(out, name, args) }
        RuleTree::Update(name, args, value, _) => { put_update(out, name, args, value.get()) }
        RuleTree::Par(first, others, _) => {
            put_led_rule(out, "par", first.get())?;
            put_last_rules(out, others.as_slice(), "endpar")
        }
        RuleTree::Seq(first, others, _) => {
            put_led_rule(out, "seq", first.get())?;
            put_last_rules(out, others.as_slice(), "endseq")
        }
        RuleTree::If(guard, first, other, _) => {
            put_led(out, "if", guard.get())?;
            put_led_rule(out, "then", first.get())?;
            put_rest_rule(out, "else", other, "endif")
        }
        RuleTree::Forall(ranges, guard, body, _) => {
            put_quantifier(out, "forall", ranges, guard)?;
            put_led_rule(out, "do", body.get())
        }
        RuleTree::Choose(ranges, guard, body, other, _) => {
            put_quantifier(out, "choose", ranges, guard)?;
            put_led_rule(out, "do", body.get())?;
            put_other_rule(out, "ifnone", other)
        }
        RuleTree::Let(binds, body, _) => {
            put_let(out, binds)?;
            put_enclosed_rule(out, "in", body.get(), "endlet")
        }
        RuleTree::Switch(value, cases, other, _) => {
            put_led(out, "switch", value.get())?;
            put_rule_cases(out, cases.as_slice())?;
            put_rest_rule(out, "otherwise", other, "endswitch")
        }
        RuleTree::Extend(name, first, others, body, _) => {
            put_extend_head(out, name, first, others.as_slice())?;
            put_led_rule(out, "do", body.get())
        }
    }
}

/// A word and a rule.
#[cycle(rules)]
#[tactic(auto, using(crate::proofs::RuleSteps::led_rule_steps))]
pub(crate) fn put_led_rule(out: &mut Writer, word: &str, rule: &RuleTree) -> Result<(), AllocError>
    ensures { OnOk result (out.new ≡ with_words out.old (parts.led_rule_words word.now rule.now)) }
{
    out.put(word)?;
    put_rule(out, rule)
}

/// A word, a rule, and a word after it.
#[cycle(rules)]
#[tactic(auto, using(crate::proofs::RuleSteps::enclosed_rule_steps))]
fn put_enclosed_rule(
    out: &mut Writer,
    word: &str,
    rule: &RuleTree,
    last: &str,
) -> Result<(), AllocError>
    ensures { OnOk result
        (out.new ≡ with_words out.old (parts.enclosed_rule_words word.now rule.now last.now)) }
{
    put_led_rule(out, word, rule)?;
    out.put(last)
}

/// A word and a rule, if there is the rule.
#[cycle(rules)]
#[tactic(auto, using(crate::proofs::RuleSteps::other_rule_steps))]
fn put_other_rule(
    out: &mut Writer,
    word: &str,
    other: &Option<Boxed<RuleTree>>,
) -> Result<(), AllocError>
    ensures { OnOk result
        (out.new ≡ with_words out.old (parts.other_rule_words word.now other.now)) }
{
    match other {
        Some(other) => put_led_rule(out, word, other.get()),
        None => Ok(()),
    }
}

/// A word and a rule, if there is the rule, and the form's last word.
#[cycle(rules)]
#[tactic(auto, using(crate::proofs::RuleSteps::rest_rule_steps))]
fn put_rest_rule(
    out: &mut Writer,
    word: &str,
    other: &Option<Boxed<RuleTree>>,
    last: &str,
) -> Result<(), AllocError>
    ensures { OnOk result
        (out.new ≡ with_words out.old (parts.rest_rule_words word.now other.now last.now)) }
{
    match other {
        Some(other) => put_enclosed_rule(out, word, other.get(), last),
        None => out.put(last),
    }
}

/// Rules, one after the other.
#[cycle(rules)]
#[tactic(auto, using(crate::proofs::RuleSteps::rules_steps))]
fn put_rules(out: &mut Writer, rules: &[Boxed<RuleTree>]) -> Result<(), AllocError>
    ensures { OnOk result (out.new ≡ with_words out.old (parts.rules_words rules.now)) }
{
    for rule in rules {
        put_rule(out, rule.get())?;
    }
    Ok(())
}

/// Rules, one after the other, and the form's last word.
#[cycle(rules)]
#[tactic(auto, using(crate::proofs::RuleSteps::last_rules_steps))]
fn put_last_rules(out: &mut Writer, rules: &[Boxed<RuleTree>], last: &str) -> Result<(), AllocError>
    ensures { OnOk result
        (out.new ≡ with_words out.old (parts.last_rules_words rules.now last.now)) }
{
    put_rules(out, rules)?;
    out.put(last)
}

/// Cases: "case" term ":" rule
#[cycle(rules)]
#[tactic(auto, using(crate::proofs::RuleSteps::rule_cases_steps))]
fn put_rule_cases(out: &mut Writer, cases: &[RuleCaseTree]) -> Result<(), AllocError>
    ensures { OnOk result (out.new ≡ with_words out.old (parts.rule_cases_words cases.now)) }
{
    for case in cases {
        put_led(out, "case", case.value.get())?;
        put_led_rule(out, ":", case.rule.get())?;
    }
    Ok(())
}

/// ID "[" [terms] "]"
#[tactic(auto, using(crate::proofs::RuleSteps::call_steps))]
fn put_call(out: &mut Writer, name: &Token, args: &Option<TermsTree>) -> Result<(), AllocError>
    ensures { OnOk result
        (out.new ≡ with_words out.old (parts.call_rule_words name.now args.now)) }
{
    out.put_token(name)?;
    put_items(out, "[", args, "]")
}

/// ID ["(" terms ")"] ":=" term
#[tactic(auto, using(crate::proofs::RuleSteps::update_steps))]
fn put_update(
    out: &mut Writer,
    name: &Token,
    args: &Option<TermsTree>,
    value: &TermTree,
) -> Result<(), AllocError>
    ensures { OnOk result
        (out.new ≡ with_words out.old (parts.update_rule_words name.now args.now value.now)) }
{
    put_name(out, name, args)?;
    put_led(out, ":=", value)
}

/// ["with" term]
#[tactic(auto, using(crate::proofs::RuleSteps::quantifier_steps))]
fn put_guard(out: &mut Writer, guard: &Option<Boxed<TermTree>>) -> Result<(), AllocError>
    ensures { OnOk result (out.new ≡ with_words out.old (guard_words guard.now)) }
{
    match guard {
        Some(guard) => put_led(out, "with", guard.get()),
        None => Ok(()),
    }
}

/// What is before the body of a `forall` or a `choose`: its word, the ranges and the guard.
#[tactic(auto, using(crate::proofs::RuleSteps::quantifier_steps))]
fn put_quantifier(
    out: &mut Writer,
    word: &str,
    ranges: &RangesTree,
    guard: &Option<Boxed<TermTree>>,
) -> Result<(), AllocError>
    ensures { OnOk result
        (out.new ≡ with_words out.old (parts.quantifier_words word.now ranges.now guard.now)) }
{
    out.put(word)?;
    put_ranges(out, ranges)?;
    put_guard(out, guard)
}

/// What is before the body of an `extend`: "extend" ID "with" VAR {"," VAR}
#[tactic(auto, using(crate::proofs::RuleSteps::extend_steps))]
fn put_extend_head(
    out: &mut Writer,
    name: &Token,
    first: &Token,
    others: &[Token],
) -> Result<(), AllocError>
    ensures { OnOk result
        (out.new ≡ with_words out.old (parts.extend_head name.now first.now others.now)) }
{
    out.put("extend")?;
    out.put_token(name)?;
    out.put("with")?;
    out.put_token(first)?;
    put_more_tokens(out, ",", others)
}
