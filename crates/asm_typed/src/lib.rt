//! Typing of terms: each gets its type and numbers for its names, or its first refusal.
#![tactic(auto)]

mod applied;
mod forms;
mod leaves;
mod ranges;
mod sizes;
mod terms;
mod typed;
mod variables;

pub use applied::{arg_fits, args_checked, args_fit};
pub use forms::all_join;
pub use leaves::unknown;
pub use ranges::{add_ranges, param_variables, params_enumerable, ranges_enumerable};
pub use sizes::size;
pub use terms::{args_typed, binds_typed, term_typed, typed_at};
pub use typed::{AllTyped, Typed};
pub use variables::Variables;
