//! The depth and the work of terms.
ghost use Rattle.std.specs.Prelude.{◌≡◌};
ghost use Rattle.asm_program.specs.Forms.{of_term};
ghost use Rattle.asm_counts.specs.CountLevels as spec;

use crate::counts::{Counts, known, nothing, product};
use asm_program::{Case, Term};
use asm_typed::size;
use asm_value::{Boxed, Domain, Domains};

/// How many members a domain has where each is taken one by one, 0 where none is.
fn members(domains: &Domains, domain: &Domain) -> u64
    ensures { result ≡ spec.members domains.now domain.now }
{
    match size(domains, domain) {
        Some(size) => size,
        None => 0,
    }
}

/// The number of combinations of members of the domains, `MOST_COUNT` where it is more.
#[tactic(auto, using(crate::proofs::Sums::combination_steps))]
pub fn combinations(domains: &Domains, ranges: &[Domain]) -> u64
    ensures { result ≡ spec.combinations domains.now ranges.now }
{
    let mut count: u64 = 1;
    for domain in ranges {
        count = product(members(domains, domain), count);
    }
    count
}

/// The counts of terms together, as those of one term.
#[cycle(terms)]
#[tactic(auto, using(crate::proofs::TermSteps::all_steps))]
pub fn all_counts(domains: &Domains, functions: &[Counts], terms: &[Boxed<Term>]) -> Counts
    ensures { result ≡ spec.terms_counts domains.now (spec.known functions.now) terms.now }
{
    let mut counts = nothing();
    for term in terms {
        counts = counts.both(counted(domains, functions, term.get()));
    }
    counts
}

#[cycle(terms)]
#[tactic(auto, using(crate::proofs::TermSteps::case_steps))]
fn case(domains: &Domains, functions: &[Counts], case: &Case) -> Counts
    ensures { result ≡ spec.case_counts domains.now (spec.known functions.now) case.now }
{
    let value = counted(domains, functions, case.value.get());
    value.both(counted(domains, functions, case.term.get()))
}

#[cycle(terms)]
#[tactic(auto, using(crate::proofs::TermSteps::cases_steps))]
fn cases(domains: &Domains, functions: &[Counts], cases: &[Case]) -> Counts
    ensures { result ≡ spec.cases_counts domains.now (spec.known functions.now) cases.now }
{
    let mut counts = nothing();
    for next in cases {
        counts = counts.both(case(domains, functions, next));
    }
    counts
}

#[cycle(terms)]
#[tactic(auto, using(crate::proofs::TermSteps::other_steps))]
pub(crate) fn other(domains: &Domains, functions: &[Counts], term: &Option<Boxed<Term>>) -> Counts
    ensures { result ≡ spec.other_counts domains.now (spec.known functions.now) term.now }
{
    match term {
        Some(term) => counted(domains, functions, term.get()),
        None => nothing(),
    }
}

/// The depth and the work of a term, where these are those of the functions by their numbers.
/// A called body is where the call is, whose arguments are a path of their own; ranges multiply
/// the work of their body. Takes no memory.
#[tactic(auto, unfolding(crate::specs::CountLevels::term_counts))]
pub fn term_counts(domains: &Domains, functions: &[Counts], term: &Term) -> Counts
    ensures { result
        ≡ of_term (spec.counts_level domains.now) (spec.known functions.now) term.now }
{
    counted(domains, functions, term)
}

#[cycle(terms)]
#[tactic(auto, using(crate::proofs::TermSteps::term_steps))]
pub(crate) fn counted(domains: &Domains, functions: &[Counts], term: &Term) -> Counts
    ensures { result ≡ spec.term_counts domains.now (spec.known functions.now) term.now }
{
    match term {
        Term::Operator { args, .. } | Term::Read { args, .. } => {
            all_counts(domains, functions, args.as_slice()).node()
        }
        Term::And { left, right } | Term::Or { left, right } | Term::Implies { left, right } => {
            let left = counted(domains, functions, left.get());
            left.both(counted(domains, functions, right.get())).node()
        }
        Term::Constant(_) | Term::Variable(_) => nothing().node(),
        Term::Call { function, args } => {
            let own = all_counts(domains, functions, args.as_slice()).node();
            own.both(known(functions, *function))
        }
        Term::Tuple { items, .. } | Term::Set { items, .. } | Term::Seq { items, .. } => {
            all_counts(domains, functions, items.as_slice()).node()
        }
        Term::Forall { ranges, body }
        | Term::Exist { ranges, body }
        | Term::ExistUnique { ranges, body } => {
            let body = counted(domains, functions, body.get());
            body.times(combinations(domains, ranges.as_slice())).node()
        }
        Term::Interval { from, to, .. } => {
            let from = counted(domains, functions, from.get());
            from.both(counted(domains, functions, to.get())).node()
        }
        Term::If {
            guard,
            then: first,
            other: last,
        } => {
            let guard = counted(domains, functions, guard.get());
            let parts = guard.both(counted(domains, functions, first.get()));
            parts.both(other(domains, functions, last)).node()
        }
        Term::Let { values, body } => {
            let values = all_counts(domains, functions, values.as_slice());
            values.both(counted(domains, functions, body.get())).node()
        }
        Term::Switch {
            value,
            cases: listed,
            other: last,
        } => {
            let value = counted(domains, functions, value.get());
            let parts = value.both(cases(domains, functions, listed.as_slice()));
            parts.both(other(domains, functions, last)).node()
        }
    }
}
