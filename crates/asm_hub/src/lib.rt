//! Tests of a book of several seats, whose calls are prepared as the server prepares them.
#![tactic(auto)]

#[cfg(test)]
mod openings;
#[cfg(test)]
mod seats;
#[cfg(test)]
mod threads;
