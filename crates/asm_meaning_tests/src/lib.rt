//! Tests of operators and of a whole model: what no clause says, worked out by hand.
#![tactic(auto)]

#[cfg(test)]
mod crossing;
#[cfg(test)]
mod tables;
