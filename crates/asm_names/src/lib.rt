//! What a text declares: what its names stand for, its functions, its macro rules and its domains;
//! and the refusals of a text whose names don't go together.
#![tactic(auto)]

mod constants;
mod domain_infos;
mod domain_refusals;
mod function_refusals;
mod headers;
mod integers;
mod listing;
mod name_refusals;
mod refusals;
mod scope;

pub use integers::int_of;
pub use scope::{declared, term_declared};
