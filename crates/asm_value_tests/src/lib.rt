//! Tests of lists, values, states and sets of updates: what no clause says, worked out by hand.
#![tactic(auto)]

#[cfg(test)]
mod domains;
#[cfg(test)]
mod firing;
#[cfg(test)]
mod orders;
#[cfg(test)]
mod weights;
