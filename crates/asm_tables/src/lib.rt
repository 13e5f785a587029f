//! The table of the language's operators: which row an operator's name and the kinds of its
//! arguments choose.
#![tactic(auto)]

mod laws;
mod rows;
mod table;

pub use laws::{
    a_match_is_admitted, an_operator_has_one_row, at_most_one_row_matches,
    no_operator_asks_for_what_is_untyped,
};
pub use rows::{OPERATORS, Operation, OperatorName, ResultRule, operators};
pub use table::{CaseTable, Kind, Kinds, Row};
