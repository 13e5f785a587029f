//! Forms of grammars as relations on whole lists, and when a parser by descent is exact for one.
//!
//! It holds definitions and laws alone, and no code that runs.
#![tactic(auto)]
