//! The parser by descent as a function on lists of tokens, and that it is exact for the grammar.
//!
//! It holds definitions and laws alone, and no code that runs.
#![tactic(auto)]
