//! The types of terms: which fits which, what they join to, and what an operator gives to arguments
//! of some types.
#![tactic(auto)]

mod domains;
mod fitting;
mod joining;
mod laws;
mod operators;
mod results;
mod types;

pub use domains::{domain_of, type_of, types_of};
pub use fitting::{each_fits, fits};
pub use joining::{join, join_all, seq_of, set_of};
pub use laws::{
    a_join_goes_by_parts, a_join_is_the_least_that_both_fit,
    a_join_of_all_is_the_least_that_all_fit, a_type_fits_what_it_joins_to,
    a_type_is_that_of_its_domain, each_rule_has_a_row, joins_have_no_order,
    three_types_have_no_join, types_are_ordered, types_have_values,
};
pub use operators::{Operator, is_operator, operator_type};
pub use types::{Type, copy_all, copy_boxed};
