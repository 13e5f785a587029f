//! Domains, ranges, parameters and integers.
ghost use Rattle.std.specs.Prelude.{◌≡◌, [], ◌∷◌, ◌++◌, codes, OnOk};
ghost use Rattle.asm_syntax.specs.Written.{after_each, comma, single};
ghost use Rattle.asm_syntax.specs.Written.{domain_words, range_words, ranges_words};
ghost use Rattle.asm_syntax.specs.Written.{params_words, int_words};
ghost use Rattle.asm_print_terms.specs.Lines.{with_words};

use crate::writer::Writer;
use asm_syntax::{Boxed, DomainTree, IntTree, ParamsTree, RangeTree, RangesTree, Token};
use std::alloc::AllocError;

/// domain = "Boolean" | "Integer" | "Natural" | "String" | ID
///        | "Prod" "(" domain "," domain {"," domain} ")"
///        | "Seq" "(" domain ")" | "Powerset" "(" domain ")"
#[cycle(domains)]
#[tactic(auto, using(crate::proofs::Words::domain_steps))]
pub fn put_domain(out: &mut Writer, domain: &DomainTree) -> Result<(), AllocError>
    ensures { OnOk result (out.new ≡ with_words out.old (domain_words domain.now)) }
{
    match domain {
        DomainTree::Truth(_) => out.put("Boolean"),
        DomainTree::Int(_) => out.put("Integer"),
        DomainTree::Nat(_) => out.put("Natural"),
        DomainTree::Chars(_) => out.put("String"),
        DomainTree::Named(name, _) => out.put_token(name),
        DomainTree::Prod(first, next, others, _) => {
            out.open("Prod")?;
            put_domain(out, first.get())?;
            out.put(",")?;
            put_domain(out, next.get())?;
            put_more_domains(out, others.as_slice())?;
            out.put(")")
        }
        DomainTree::Seq(part, _) => put_domain_of(out, "Seq", part.get()),
        DomainTree::Powerset(part, _) => put_domain_of(out, "Powerset", part.get()),
    }
}

/// A word, and a domain in parentheses.
#[cycle(domains)]
#[tactic(auto, using(crate::proofs::Words::domain_steps))]
fn put_domain_of(out: &mut Writer, word: &str, part: &DomainTree) -> Result<(), AllocError>
    ensures { OnOk result (out.new ≡ with_words out.old
        (word.now ∷ codes "(" ∷ domain_words part.now ++ codes ")" ∷ [])) }
{
    out.open(word)?;
    put_domain(out, part)?;
    out.put(")")
}

/// Domains, a comma before each.
#[cycle(domains)]
#[tactic(auto, using(crate::proofs::Words::domain_steps))]
fn put_more_domains(out: &mut Writer, domains: &[Boxed<DomainTree>]) -> Result<(), AllocError>
    ensures { OnOk result
        (out.new ≡ with_words out.old (after_each comma domain_words domains.now)) }
{
    for domain in domains {
        out.put(",")?;
        put_domain(out, domain.get())?;
    }
    Ok(())
}

/// range = VAR "in" domain
fn put_range(out: &mut Writer, range: &RangeTree) -> Result<(), AllocError>
    ensures { OnOk result (out.new ≡ with_words out.old (range_words range.now)) }
{
    out.put_token(&range.variable)?;
    out.put("in")?;
    put_domain(out, range.domain.get())
}

/// Ranges, a comma before each.
#[tactic(auto, using(crate::proofs::Words::list_steps))]
fn put_more_ranges(out: &mut Writer, ranges: &[RangeTree]) -> Result<(), AllocError>
    ensures { OnOk result
        (out.new ≡ with_words out.old (after_each comma range_words ranges.now)) }
{
    for range in ranges {
        out.put(",")?;
        put_range(out, range)?;
    }
    Ok(())
}

/// ranges = range {"," range}
#[tactic(auto, using(crate::proofs::Words::list_steps))]
pub fn put_ranges(out: &mut Writer, ranges: &RangesTree) -> Result<(), AllocError>
    ensures { OnOk result (out.new ≡ with_words out.old (ranges_words ranges.now)) }
{
    put_range(out, &ranges.first)?;
    put_more_ranges(out, ranges.others.as_slice())
}

/// params = "(" ranges ")"
#[tactic(auto, using(crate::proofs::Words::list_steps))]
pub fn put_params(out: &mut Writer, params: &ParamsTree) -> Result<(), AllocError>
    ensures { OnOk result (out.new ≡ with_words out.old (params_words params.now)) }
{
    out.put("(")?;
    put_ranges(out, &params.ranges)?;
    out.put(")")
}

/// int = ["-"] NUMBER
pub fn put_int(out: &mut Writer, int: &IntTree) -> Result<(), AllocError>
    ensures { OnOk result (out.new ≡ with_words out.old (int_words int.now)) }
{
    if int.is_negative {
        out.put("-")?;
        out.put_token(&int.number)
    } else {
        out.put_token(&int.number)
    }
}

/// Integers, a comma before each.
#[tactic(auto, using(crate::proofs::Words::list_steps))]
pub fn put_more_ints(out: &mut Writer, ints: &[IntTree]) -> Result<(), AllocError>
    ensures { OnOk result (out.new ≡ with_words out.old (after_each comma int_words ints.now)) }
{
    for int in ints {
        out.put(",")?;
        put_int(out, int)?;
    }
    Ok(())
}

/// Tokens, the separator before each.
#[tactic(auto, using(crate::proofs::Words::list_steps))]
pub fn put_more_tokens(
    out: &mut Writer,
    separator: &str,
    tokens: &[Token],
) -> Result<(), AllocError>
    ensures { OnOk result
        (out.new ≡ with_words out.old (after_each separator.now single tokens.now)) }
{
    for token in tokens {
        out.put(separator)?;
        out.put_token(token)?;
    }
    Ok(())
}
