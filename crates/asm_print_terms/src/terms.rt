//! Terms, with parentheses only where the grammar needs them.
ghost use Rattle.std.specs.Prelude.{◌≡◌, ◌≤◌, ◌∷◌, OnOk};
ghost use Rattle.asm_syntax.specs.Written.{word_of, term_writing, terms_words, binds_words};
ghost use Rattle.asm_print_terms.specs.Lines.{with_words};
ghost use Rattle.asm_print_terms.specs.Parts as parts;
ghost use Rattle.asm_print_terms.specs.Parts.{bind_words};

use crate::domains::put_ranges;
use crate::tightness::{binary_tightness, left_tightness, prefix_tightness, right_tightness};
use crate::writer::Writer;
use asm_syntax::{
    BindTree, BindsTree, Boxed, CaseTree, RangesTree, TermTree, TermsTree, Text, Token,
};
use std::alloc::AllocError;

/// A term, in parentheses where it is less tight than needed.
#[cycle(terms)]
#[tactic(auto, using(crate::proofs::TermSteps::term_steps))]
pub fn put_term(out: &mut Writer, term: &TermTree, needed: u8) -> Result<(), AllocError>
    ensures { OnOk result (out.new ≡ with_words out.old (term_writing term.now needed)) }
{
    match term {
        TermTree::Prefix(op, operand, _) => put_prefix(out, op, operand.get(), needed),
        TermTree::Binary(left, op, right, _) => {
            let own = binary_tightness(op.as_str());
            put_left(out, left.get(), own, needed)?;
            put_right(out, op, right.get(), own, needed)
        }
        TermTree::Number(token, _) | TermTree::Chars(token, _) | TermTree::Var(token, _) => {
            out.put_token(token)
        }
        TermTree::True(_) => out.put("true"),
        TermTree::False(_) => out.put("false"),
        TermTree::Undef(_) => out.put("undef"),
        TermTree::Name(name, args, _) => put_name(out, name, args),
        TermTree::Tuple(items, _) => put_tuple(out, items),
        TermTree::Forall(ranges, body, _) => put_forall(out, ranges, body.get()),
        TermTree::Exist(is_unique, ranges, body, _) => {
            put_exist(out, *is_unique, ranges, body.get())
        }
        TermTree::Interval(from, to, _) => {
            put_led(out, "{", from.get())?;
            put_enclosed(out, "..", to.get(), "}")
        }
        TermTree::Set(items, _) => put_items(out, "{", items, "}"),
        TermTree::Seq(items, _) => put_items(out, "[", items, "]"),
        TermTree::If(guard, first, other, _) => {
            put_led(out, "if", guard.get())?;
            put_led(out, "then", first.get())?;
            put_rest(out, "else", other, "endif")
        }
        TermTree::Let(binds, body, _) => {
            put_let(out, binds)?;
            put_enclosed(out, "in", body.get(), "endlet")
        }
        TermTree::Switch(value, cases, other, _) => {
            put_led(out, "switch", value.get())?;
            put_cases(out, cases.as_slice())?;
            put_rest(out, "otherwise", other, "endswitch")
        }
    }
}

// ---- operators

/// neg = "not" neg, sign = "-" sign
#[cycle(terms)]
#[tactic(auto, using(crate::proofs::TermSteps::prefix_steps))]
fn put_prefix(out: &mut Writer, op: &Text, operand: &TermTree, needed: u8) -> Result<(), AllocError>
    ensures { OnOk result
        (out.new ≡ with_words out.old (parts.prefix_words op.now operand.now needed)) }
{
    let own = prefix_tightness(op.as_str());
    out.put_if(own < needed, "(")?;
    out.put(op.as_str())?;
    put_term(out, operand, own)?;
    out.put_if(own < needed, ")")
}

/// The left operand of a binary operator, after `(` where the term is less tight than needed.
#[cycle(terms)]
#[tactic(auto, using(crate::proofs::TermSteps::left_steps))]
fn put_left(out: &mut Writer, operand: &TermTree, own: u8, needed: u8) -> Result<(), AllocError>
    requires { own ≤ 7 }
    ensures { OnOk result
        (out.new ≡ with_words out.old (parts.left_words operand.now own needed)) }
{
    out.put_if(own < needed, "(")?;
    put_term(out, operand, left_tightness(own))
}

/// A binary operator and its right operand, before `)` where the term is less tight than needed.
#[cycle(terms)]
#[tactic(auto, using(crate::proofs::TermSteps::right_steps))]
fn put_right(
    out: &mut Writer,
    op: &Text,
    operand: &TermTree,
    own: u8,
    needed: u8,
) -> Result<(), AllocError>
    requires { own ≤ 7 }
    ensures { OnOk result
        (out.new ≡ with_words out.old (parts.right_words op.now operand.now own needed)) }
{
    out.put(op.as_str())?;
    put_term(out, operand, right_tightness(own))?;
    out.put_if(own < needed, ")")
}

// ---- parts of any form

/// A word, and after it a term that needs no parentheses.
#[cycle(terms)]
#[tactic(auto, using(crate::proofs::TermSteps::led_steps))]
pub fn put_led(out: &mut Writer, word: &str, term: &TermTree) -> Result<(), AllocError>
    ensures { OnOk result (out.new ≡ with_words out.old (parts.led_words word.now term.now)) }
{
    out.put(word)?;
    put_term(out, term, 0)
}

/// A word, a term that needs no parentheses, and a word after it.
#[cycle(terms)]
#[tactic(auto, using(crate::proofs::TermSteps::enclosed_steps))]
fn put_enclosed(out: &mut Writer, word: &str, term: &TermTree, last: &str) -> Result<(), AllocError>
    ensures { OnOk result
        (out.new ≡ with_words out.old (parts.enclosed_words word.now term.now last.now)) }
{
    put_led(out, word, term)?;
    out.put(last)
}

/// A word and a term, if there is the term, and the form's last word.
#[cycle(terms)]
#[tactic(auto, using(crate::proofs::TermSteps::rest_steps))]
fn put_rest(
    out: &mut Writer,
    word: &str,
    other: &Option<Boxed<TermTree>>,
    last: &str,
) -> Result<(), AllocError>
    ensures { OnOk result
        (out.new ≡ with_words out.old (parts.rest_words word.now other.now last.now)) }
{
    match other {
        Some(other) => put_enclosed(out, word, other.get(), last),
        None => out.put(last),
    }
}

/// Terms, a comma before each.
#[cycle(terms)]
#[tactic(auto, using(crate::proofs::TermSteps::more_terms_steps))]
fn put_more_terms(out: &mut Writer, terms: &[Boxed<TermTree>]) -> Result<(), AllocError>
    ensures { OnOk result (out.new ≡ with_words out.old (parts.more_terms_words terms.now)) }
{
    for term in terms {
        put_led(out, ",", term.get())?;
    }
    Ok(())
}

/// terms = term {"," term}
#[cycle(terms)]
#[tactic(auto, using(crate::proofs::TermSteps::terms_steps))]
fn put_terms(out: &mut Writer, terms: &TermsTree) -> Result<(), AllocError>
    ensures { OnOk result (out.new ≡ with_words out.old (terms_words terms.now)) }
{
    put_term(out, terms.first.get(), 0)?;
    put_more_terms(out, terms.others.as_slice())
}

// ---- forms

/// Terms in parentheses.
#[cycle(terms)]
#[tactic(auto, using(crate::proofs::TermSteps::tuple_steps))]
fn put_tuple(out: &mut Writer, items: &TermsTree) -> Result<(), AllocError>
    ensures { OnOk result (out.new ≡ with_words out.old (parts.tuple_words items.now)) }
{
    out.put("(")?;
    put_terms(out, items)?;
    out.put(")")
}

/// ID ["(" terms ")"]
#[cycle(terms)]
#[tactic(auto, using(crate::proofs::TermSteps::name_steps))]
pub fn put_name(out: &mut Writer, name: &Token, args: &Option<TermsTree>) -> Result<(), AllocError>
    ensures { OnOk result
        (out.new ≡ with_words out.old (word_of name.now ∷ parts.args_words args.now)) }
{
    out.put_token(name)?;
    match args {
        Some(args) => put_tuple(out, args),
        None => Ok(()),
    }
}

/// Items, where there are some, between two brackets.
#[cycle(terms)]
#[tactic(auto, using(crate::proofs::TermSteps::items_steps))]
pub fn put_items(
    out: &mut Writer,
    first: &str,
    items: &Option<TermsTree>,
    last: &str,
) -> Result<(), AllocError>
    ensures { OnOk result
        (out.new ≡ with_words out.old (parts.items_words first.now items.now last.now)) }
{
    out.put(first)?;
    match items {
        Some(items) => {
            put_terms(out, items)?;
            out.put(last)
        }
        None => out.put(last),
    }
}

/// What follows the quantifier: ranges "with" term ")"
#[cycle(terms)]
#[tactic(auto, using(crate::proofs::TermSteps::quantified_steps))]
fn put_quantified(out: &mut Writer, ranges: &RangesTree, body: &TermTree) -> Result<(), AllocError>
    ensures { OnOk result
        (out.new ≡ with_words out.old (parts.quantified_rest ranges.now body.now)) }
{
    put_ranges(out, ranges)?;
    put_enclosed(out, "with", body, ")")
}

/// "(" "forall" ranges "with" term ")"
#[cycle(terms)]
#[tactic(auto, using(crate::proofs::TermSteps::forall_steps))]
fn put_forall(out: &mut Writer, ranges: &RangesTree, body: &TermTree) -> Result<(), AllocError>
    ensures { OnOk result
        (out.new ≡ with_words out.old (parts.forall_words ranges.now body.now)) }
{
    out.put("(")?;
    out.put("forall")?;
    put_quantified(out, ranges, body)
}

/// "(" "exist" ["unique"] ranges "with" term ")"
#[cycle(terms)]
#[tactic(auto, using(crate::proofs::TermSteps::exist_steps))]
fn put_exist(
    out: &mut Writer,
    is_unique: bool,
    ranges: &RangesTree,
    body: &TermTree,
) -> Result<(), AllocError>
    ensures { OnOk result
        (out.new ≡ with_words out.old (parts.exist_words is_unique ranges.now body.now)) }
{
    out.put("(")?;
    out.put("exist")?;
    out.put_if(is_unique, "unique")?;
    put_quantified(out, ranges, body)
}

/// VAR "=" term
#[cycle(terms)]
#[tactic(auto, using(crate::proofs::TermSteps::bind_steps))]
fn put_bind(out: &mut Writer, bind: &BindTree) -> Result<(), AllocError>
    ensures { OnOk result (out.new ≡ with_words out.old (bind_words bind.now)) }
{
    out.put_token(&bind.variable)?;
    put_led(out, "=", bind.value.get())
}

/// What is bound, a comma before each.
#[cycle(terms)]
#[tactic(auto, using(crate::proofs::TermSteps::more_binds_steps))]
fn put_more_binds(out: &mut Writer, binds: &[BindTree]) -> Result<(), AllocError>
    ensures { OnOk result (out.new ≡ with_words out.old (parts.more_binds_words binds.now)) }
{
    for bind in binds {
        out.put(",")?;
        put_bind(out, bind)?;
    }
    Ok(())
}

/// binds = "(" VAR "=" term {"," VAR "=" term} ")"
#[cycle(terms)]
#[tactic(auto, using(crate::proofs::TermSteps::binds_steps))]
fn put_binds(out: &mut Writer, binds: &BindsTree) -> Result<(), AllocError>
    ensures { OnOk result (out.new ≡ with_words out.old (binds_words binds.now)) }
{
    out.put("(")?;
    put_bind(out, &binds.first)?;
    put_more_binds(out, binds.others.as_slice())?;
    out.put(")")
}

/// "let" binds
#[cycle(terms)]
#[tactic(auto, using(crate::proofs::TermSteps::let_steps))]
pub fn put_let(out: &mut Writer, binds: &BindsTree) -> Result<(), AllocError>
    ensures { OnOk result (out.new ≡ with_words out.old (parts.let_words binds.now)) }
{
    out.put("let")?;
    put_binds(out, binds)
}

/// Cases: "case" term ":" term
#[cycle(terms)]
#[tactic(auto, using(crate::proofs::TermSteps::cases_steps))]
fn put_cases(out: &mut Writer, cases: &[CaseTree]) -> Result<(), AllocError>
    ensures { OnOk result (out.new ≡ with_words out.old (parts.cases_words cases.now)) }
{
    for case in cases {
        put_led(out, "case", case.value.get())?;
        put_led(out, ":", case.term.get())?;
    }
    Ok(())
}
