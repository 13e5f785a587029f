//! What typed definitions call is named in them, so that none of a program reaches itself.
#![tactic(auto)]

mod calls;

pub use calls::{
    calls_of_functions_lie_in_the_graph, calls_of_macros_lie_in_the_graph,
    functions_of_an_unrefused_text_are_ranked, macros_of_an_unrefused_text_are_ranked,
};
