//! What a text is made of, in text order, as far as names go: what is declared, what is counted,
//! and which names are used.
#![tactic(auto)]

mod declarations;
mod definitions;
mod domains;
mod item;
mod models;
mod name_set;
mod ranges;
mod rules;
mod terms;
mod words;

pub use definitions::invariant_name;
pub use item::{Item, Items};
pub use models::model_items;
pub use name_set::NameSet;
pub use rules::rule_items;
pub use terms::term_items;
pub use words::text_of;
