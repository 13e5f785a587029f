//! Tests of texts: their tokens and trees, their refusals, and the canonical text of their trees.
#![tactic(auto)]

#[cfg(test)]
mod first_refusals;
#[cfg(test)]
mod lex_refusals;
#[cfg(test)]
mod lex_tokens;
#[cfg(test)]
mod nesting;
#[cfg(test)]
mod printed_models;
#[cfg(test)]
mod printed_terms;
#[cfg(test)]
mod syntax_places;
