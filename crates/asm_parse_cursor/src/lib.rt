//! A cursor over the tokens of a text: what a parser sees ahead, what it takes, and the span of it.
#![tactic(auto)]

mod refusal;
mod tokens;

pub use refusal::GrammarRefusal;
pub use tokens::Tokens;
