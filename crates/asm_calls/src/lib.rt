//! Which definitions of a text call one another, and that none reaches itself.
#![tactic(auto)]

mod graph;
mod laws;
mod reach;
mod texts;

pub use graph::{first_recursive, order};
pub use laws::{
    a_definition_calls_what_it_names, a_definition_reaches_by_few_calls,
    functions_of_a_text_are_ranked, functions_of_definitions_are_ranked,
    macros_of_a_text_are_ranked, macros_of_definitions_are_ranked,
    no_recursion_where_no_call_is_refused, what_is_reached_falls_along_calls,
};
pub use texts::calls_checked;
