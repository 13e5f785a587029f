//! The words of domains and terms, and a text that grows by words.
#![tactic(auto)]

mod domains;
mod terms;
mod tightness;
mod writer;

pub use domains::{put_domain, put_int, put_more_ints, put_more_tokens, put_params, put_ranges};
pub use terms::{put_items, put_led, put_let, put_name, put_term};
pub use writer::Writer;
