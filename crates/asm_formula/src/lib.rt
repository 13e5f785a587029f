//! Formulas, by which models are joined to one step, and the reading of them.
#![tactic(auto)]

mod formula;
mod front;
mod laws;
mod lexing;
mod parsing;
mod read;
mod token;
mod tokens;

pub use formula::{Formula, FormulaRefusal, Operator};
pub use laws::{
    a_formula_has_few_names, a_formula_is_read, a_front_of_a_formula_begins_one,
    a_text_without_formula_is_refused,
};
pub use read::read_formula;
