//! The counts that are known of what a text defines.
ghost use Rattle.std.specs.Prelude.{◌≡◌};
ghost use Rattle.asm_limits.specs.Rounds as spec;

use asm_counts::{Counts, NO_COUNTS, rule_counts, term_counts};
use asm_program::{MacroInfo, Rule, Term};
use asm_value::{Boxed, Domains};

/// Those of the functions and of the macro rules, by their numbers.
#[derive(Clone, Copy)]
pub(crate) struct Known<'a> {
    pub domains: &'a Domains,
    pub functions: &'a [Counts],
    pub macros: &'a [Counts],
}

impl Known<'_> {
    /// The depth and the work of a term.
    pub fn term(&self, term: &Term) -> Counts
        ensures { result ≡ spec.counted self.now.domains.now self.now.functions.now term.now }
    {
        term_counts(self.domains, self.functions, term)
    }

    /// The depth and the work of a rule.
    pub fn rule(&self, rule: &Rule) -> Counts
        ensures { result ≡ spec.rule_counted self.now.domains.now self.now.functions.now
            self.now.macros.now rule.now }
    {
        rule_counts(self.domains, self.functions, self.macros, rule)
    }
}

/// The counts of a function's term. There are none of a function without one.
#[tactic(auto, unfolding(crate::specs::Rounds::body_counts))]
pub(crate) fn body_counts(
    domains: &Domains,
    functions: &[Counts],
    body: &Option<Boxed<Term>>,
) -> Counts
    ensures { result ≡ spec.body_counts domains.now functions.now body.now }
{
    match body {
        Some(term) => term_counts(domains, functions, term.get()),
        None => NO_COUNTS,
    }
}

/// The counts of a macro rule's body.
#[tactic(auto, unfolding(crate::specs::Rounds::macro_counts))]
pub(crate) fn macro_counts(
    domains: &Domains,
    functions: &[Counts],
    macros: &[Counts],
    info: &MacroInfo,
) -> Counts
    ensures { result ≡ spec.macro_counts domains.now functions.now macros.now info.now }
{
    rule_counts(domains, functions, macros, info.body.get())
}
