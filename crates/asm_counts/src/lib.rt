//! The depth and the work of terms and rules, counted from those of what they call.
#![tactic(auto)]

mod counts;
mod laws;
mod rules;
mod terms;

pub use counts::{Counts, MOST_COUNT, NO_COUNTS};
pub use laws::{counts_tell_of_rules, counts_tell_of_terms};
pub use rules::rule_counts;
pub use terms::{all_counts, combinations, term_counts};
