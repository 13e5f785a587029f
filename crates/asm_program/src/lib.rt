//! Programs: typed models in which each name is a number, and what their terms and rules mean.
#![tactic(auto)]

mod bad_text;
mod checked;
mod laws;
mod named;
mod outcome;
mod program;
mod rule_laws;
mod term_laws;
mod trees;
mod type_refusal;
mod typing_laws;

pub use bad_text::BadText;
pub use checked::CheckedTerm;
pub use laws::{
    a_forall_yields_the_union, a_par_has_no_order, a_par_yields_the_union, a_seq_stops_at_a_clash,
    a_seq_yields_the_overlay, a_step_leaves_members_numbered, an_if_yields_a_branch,
    an_update_yields_itself, new_members_of_a_step_are_added, new_members_of_a_step_differ,
    none_is_broken_exactly_where_all_hold, only_the_truth_value_is_true, skip_is_neutral_in_a_seq,
    skip_yields_nothing, the_initial_state_numbers_its_members, what_a_rule_yields_is_of_the_book,
    what_a_step_yields_is_of_the_book,
};
pub use named::Named;
pub use outcome::{Fault, FaultKind, Outcome, Parts};
pub use program::{FunctionInfo, FunctionKind, InitInfo, Inv, MacroInfo, Program};
pub use rule_laws::{
    a_macro_call_yields_what_its_body_yields, a_rule_yields_what_its_parts_yield,
    following_macro_calls_deeper_changes_nothing,
};
pub use term_laws::{
    a_call_gives_what_its_body_gives, a_term_gives_what_its_parts_give,
    following_calls_deeper_changes_nothing,
};
pub use trees::{Case, Rule, RuleCase, Term};
pub use type_refusal::{Limited, TypeRefusal};
pub use typing_laws::{
    a_rule_is_unrefused_where_it_is_typed, a_term_has_one_type,
    a_term_is_unrefused_where_it_has_a_type, scopes_are_whole,
};
