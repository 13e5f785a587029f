//! Heights of terms. A height is compared with the most that is allowed, which goes down by one from
//! a term to its parts, so that no more than 64 calls are in one another.
ghost use Rattle.std.specs.Prelude.{◌≡◌, nat_le};
ghost use Rattle.std.specs.Option.{option_map};
ghost use Rattle.std.specs.List.{list_all};
ghost use Rattle.asm_syntax.specs.Heights.{height, fits, or_zero};
ghost use Rattle.asm_parse_terms.specs.HeightParts.{bind_height, binds_height, case_height};
ghost use Rattle.asm_parse_terms.specs.HeightParts.{terms_height, switch_height};

use asm_syntax::{BindTree, BindsTree, Boxed, CaseTree, List, TermTree, TermsTree};

/// The greatest height left of an operator.
const MOST: usize = 63;

/// Whether a term may be left of an operator.
#[tactic(auto, using(crate::proofs::HeightSteps::fits_is))]
pub(crate) fn fits(term: &TermTree) -> bool
    ensures { result ≡ fits term.now }
{
    is_within(term, MOST)
}

/// Whether a term is at most so high.
#[cycle(heights)]
#[tactic(auto, using(crate::proofs::HeightSteps::height_steps))]
fn is_within(term: &TermTree, most: usize) -> bool
    ensures { result ≡ nat_le (height term.now) most }
{
    match term {
        TermTree::Number(_, _) => true,
        TermTree::Chars(_, _) => true,
        TermTree::True(_) => true,
        TermTree::False(_) => true,
        TermTree::Undef(_) => true,
        TermTree::Var(_, _) => true,
        TermTree::Name(_, None, _) => true,
        TermTree::Set(None, _) => true,
        TermTree::Seq(None, _) => true,
        TermTree::Prefix(_, operand, _) => most > 0 && is_within(operand.get(), most - 1),
        TermTree::Binary(left, _, right, _) => {
            most > 0 && is_within(left.get(), most - 1) && is_within(right.get(), most - 1)
        }
        TermTree::Name(_, Some(args), _) => most > 0 && are_within(args, most - 1),
        TermTree::Tuple(items, _) => most > 0 && are_within(items, most - 1),
        TermTree::Forall(_, body, _) => most > 0 && is_within(body.get(), most - 1),
        TermTree::Exist(_, _, body, _) => most > 0 && is_within(body.get(), most - 1),
        TermTree::Interval(from, to, _) => {
            most > 0 && is_within(from.get(), most - 1) && is_within(to.get(), most - 1)
        }
        TermTree::Set(Some(items), _) => most > 0 && are_within(items, most - 1),
        TermTree::Seq(Some(items), _) => most > 0 && are_within(items, most - 1),
        TermTree::If(guard, first, other, _) => {
            most > 0
                && is_within(guard.get(), most - 1)
                && is_within(first.get(), most - 1)
                && is_other_within(other, most - 1)
        }
        TermTree::Let(binds, body, _) => {
            most > 0 && are_binds_within(binds, most - 1) && is_within(body.get(), most - 1)
        }
        TermTree::Switch(value, cases, other, _) => {
            most > 0 && is_switch_within(value, cases, other, most - 1)
        }
    }
}

#[cycle(heights)]
#[tactic(auto, using(crate::proofs::HeightSteps::height_steps))]
fn is_other_within(other: &Option<Boxed<TermTree>>, most: usize) -> bool
    ensures { result ≡ nat_le (or_zero (option_map height other.now)) most }
{
    match other {
        None => true,
        Some(other) => is_within(other.get(), most),
    }
}

#[cycle(heights)]
#[tactic(auto, using(crate::proofs::HeightSteps::le_cases))]
fn is_switch_within(
    value: &Boxed<TermTree>,
    cases: &List<CaseTree>,
    other: &Option<Boxed<TermTree>>,
    most: usize,
) -> bool
    ensures { result ≡ nat_le (switch_height value.now cases.now other.now) most }
{
    is_within(value.get(), most)
        && are_cases_within(cases.as_slice(), most)
        && is_other_within(other, most)
}

#[cycle(heights)]
#[tactic(auto, using(crate::proofs::HeightSteps::height_steps))]
fn are_within(terms: &TermsTree, most: usize) -> bool
    ensures { result ≡ nat_le (terms_height terms.now) most }
{
    is_within(terms.first.get(), most) && all_within(terms.others.as_slice(), most)
}

#[cycle(heights)]
#[tactic(auto, using(crate::proofs::HeightSteps::height_steps))]
fn all_within(terms: &[Boxed<TermTree>], most: usize) -> bool
    ensures { result ≡ list_all (λ t. nat_le (height t) most) terms.now }
{
    for term in terms {
        if !is_within(term.get(), most) {
            return false;
        }
    }
    true
}

#[cycle(heights)]
#[tactic(auto, using(crate::proofs::HeightSteps::height_steps))]
fn is_bind_within(bind: &BindTree, most: usize) -> bool
    ensures { result ≡ nat_le (bind_height bind.now) most }
{
    is_within(bind.value.get(), most)
}

#[cycle(heights)]
#[tactic(auto, using(crate::proofs::HeightSteps::height_steps))]
fn are_binds_within(binds: &BindsTree, most: usize) -> bool
    ensures { result ≡ nat_le (binds_height binds.now) most }
{
    is_bind_within(&binds.first, most) && are_further_within(binds.others.as_slice(), most)
}

#[cycle(heights)]
#[tactic(auto, using(crate::proofs::HeightSteps::height_steps))]
fn are_further_within(binds: &[BindTree], most: usize) -> bool
    ensures { result ≡ list_all (λ b. nat_le (bind_height b) most) binds.now }
{
    for bind in binds {
        if !is_bind_within(bind, most) {
            return false;
        }
    }
    true
}

#[cycle(heights)]
#[tactic(auto, using(crate::proofs::HeightSteps::height_steps))]
fn is_case_within(case: &CaseTree, most: usize) -> bool
    ensures { result ≡ nat_le (case_height case.now) most }
{
    is_within(case.value.get(), most) && is_within(case.term.get(), most)
}

#[cycle(heights)]
#[tactic(auto, using(crate::proofs::HeightSteps::height_steps))]
fn are_cases_within(cases: &[CaseTree], most: usize) -> bool
    ensures { result ≡ list_all (λ c. nat_le (case_height c) most) cases.now }
{
    for case in cases {
        if !is_case_within(case, most) {
            return false;
        }
    }
    true
}
