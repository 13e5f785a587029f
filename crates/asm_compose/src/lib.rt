//! Runs of formulas: what joined models are offered, and what they give.
#![tactic(auto)]

mod given;
mod laws;
mod leaf;
mod offer;
mod outcome;
mod run;

pub use asm_formula::{Formula, FormulaRefusal, Operator};
pub use given::Given;
pub use laws::{a_run_depends_on_its_models_alone, each_model_steps_once_in_text_order};
pub use leaf::Leaf;
pub use offer::Offer;
pub use outcome::FormulaOutcome;
pub use run::run_formula;
