//! Definitions and initial terms, each a line.
ghost use Rattle.std.specs.Prelude.{◌≡◌, [], map, OnOk};
ghost use Rattle.asm_syntax.specs.Written.{if_there, single};
ghost use Rattle.asm_print_terms.specs.Lines.{with_words, with_lines};
ghost use Rattle.asm_print.specs.LineParts as parts;

use crate::decls::open_domain;
use crate::rules::put_led_rule;
use asm_print_terms::{Writer, put_int, put_led, put_more_ints, put_more_tokens, put_params};
use asm_syntax::{DefTree, IntTree, ParamsTree, RuleTree, StartTree, TermTree, Token};
use std::alloc::AllocError;

/// "domain" ID "=" "{" int ".." int "}"
#[tactic(auto, using(crate::proofs::LineSteps::subset_interval_steps))]
fn put_interval(
    out: &mut Writer,
    name: &Token,
    first: &IntTree,
    last: &IntTree,
) -> Result<(), AllocError>
    ensures { OnOk result
        (out.new ≡ with_words out.old (parts.subset_interval_words name.now first.now last.now)) }
{
    open_domain(out, name)?;
    put_int(out, first)?;
    out.put("..")?;
    put_int(out, last)?;
    out.put("}")
}

/// "domain" ID "=" "{" int {"," int} "}"
#[tactic(auto, using(crate::proofs::LineSteps::subset_integers_steps))]
fn put_integers(
    out: &mut Writer,
    name: &Token,
    first: &IntTree,
    others: &[IntTree],
) -> Result<(), AllocError>
    ensures { OnOk result
        (out.new ≡ with_words out.old (parts.subset_integers_words name.now first.now others.now)) }
{
    open_domain(out, name)?;
    put_int(out, first)?;
    put_more_ints(out, others)?;
    out.put("}")
}

/// A word, a name and its parameters.
#[tactic(auto, using(crate::proofs::LineSteps::left_steps))]
fn put_left(
    out: &mut Writer,
    word: &str,
    name: &Token,
    params: &Option<ParamsTree>,
) -> Result<(), AllocError>
    ensures { OnOk result
        (out.new ≡ with_words out.old (parts.left_words word.now name.now params.now)) }
{
    out.put(word)?;
    out.put_token(name)?;
    match params {
        Some(params) => put_params(out, params),
        None => Ok(()),
    }
}

/// "function" ID [params] "=" term
#[tactic(auto, using(crate::proofs::LineSteps::function_steps))]
fn put_function(
    out: &mut Writer,
    name: &Token,
    params: &Option<ParamsTree>,
    term: &TermTree,
) -> Result<(), AllocError>
    ensures { OnOk result
        (out.new ≡ with_words out.old (parts.function_words name.now params.now term.now)) }
{
    put_left(out, "function", name, params)?;
    put_led(out, "=", term)
}

/// "rule" ID [params] "=" rule
#[tactic(auto, using(crate::proofs::LineSteps::rule_def_steps))]
fn put_rule_def(
    out: &mut Writer,
    name: &Token,
    params: &Option<ParamsTree>,
    rule: &RuleTree,
) -> Result<(), AllocError>
    ensures { OnOk result
        (out.new ≡ with_words out.old (parts.rule_def_words name.now params.now rule.now)) }
{
    put_left(out, "rule", name, params)?;
    put_led_rule(out, "=", rule)
}

fn put_label(out: &mut Writer, name: &Option<Token>) -> Result<(), AllocError>
    ensures { OnOk result (out.new ≡ with_words out.old (if_there [] single name.now)) }
{
    match name {
        Some(name) => out.put_token(name),
        None => Ok(()),
    }
}

/// "over" ID {"," ID}
#[tactic(auto, using(crate::proofs::LineSteps::over_steps))]
fn put_over(out: &mut Writer, first: &Token, others: &[Token]) -> Result<(), AllocError>
    ensures { OnOk result (out.new ≡ with_words out.old (parts.over_words first.now others.now)) }
{
    out.put("over")?;
    out.put_token(first)?;
    put_more_tokens(out, ",", others)
}

/// "invariant" [ID] "over" ID {"," ID} ":" term
#[tactic(auto, using(crate::proofs::LineSteps::invariant_steps))]
fn put_invariant(
    out: &mut Writer,
    name: &Option<Token>,
    first: &Token,
    others: &[Token],
    term: &TermTree,
) -> Result<(), AllocError>
    ensures { OnOk result (out.new ≡ with_words out.old
        (parts.invariant_words name.now first.now others.now term.now)) }
{
    out.put("invariant")?;
    put_label(out, name)?;
    put_over(out, first, others)?;
    put_led(out, ":", term)
}

/// A definition, without its `macro`.
#[tactic(auto, using(crate::proofs::LineSteps::def_line_is))]
fn put_def(out: &mut Writer, def: &DefTree) -> Result<(), AllocError>
    ensures { OnOk result (out.new ≡ with_words out.old (parts.def_line def.now)) }
{
    match def {
        DefTree::Interval(name, first, last, _) => put_interval(out, name, first, last),
        DefTree::Integers(name, first, others, _) => {
            put_integers(out, name, first, others.as_slice())
        }
        DefTree::Function(name, params, term, _) => put_function(out, name, params, term.get()),
        DefTree::Rule(name, params, rule, _) => put_rule_def(out, name, params, rule.get()),
        DefTree::Invariant(name, first, others, term, _) => {
            put_invariant(out, name, first, others.as_slice(), term.get())
        }
    }
}

/// Definitions, a line for each.
#[tactic(auto, using(asm_print_terms::proofs::Texts::line_steps))]
pub(crate) fn put_defs(out: &mut Writer, defs: &[DefTree]) -> Result<(), AllocError>
    ensures { OnOk result (out.new ≡ with_lines out.old (map parts.def_line defs.now)) }
{
    for def in defs {
        put_def(out, def)?;
        out.end_line()?;
    }
    Ok(())
}

/// "function" ID [params] "=" term
#[tactic(auto, unfolding(crate::specs::LineParts::function_words, crate::specs::LineParts::start_line))]
fn put_start(out: &mut Writer, start: &StartTree) -> Result<(), AllocError>
    ensures { OnOk result (out.new ≡ with_words out.old (parts.start_line start.now)) }
{
    put_function(out, &start.function, &start.params, start.term.get())
}

/// Initial terms, a line for each.
#[tactic(auto, using(asm_print_terms::proofs::Texts::line_steps))]
pub(crate) fn put_starts(out: &mut Writer, starts: &[StartTree]) -> Result<(), AllocError>
    ensures { OnOk result (out.new ≡ with_lines out.old (map parts.start_line starts.now)) }
{
    for start in starts {
        put_start(out, start)?;
        out.end_line()?;
    }
    Ok(())
}
