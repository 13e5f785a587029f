//! Tests of bytes in and out, of the program over sources and sinks that fail, and of a journal with
//! little room.
#![tactic(auto)]

#[cfg(test)]
mod answers;
#[cfg(test)]
mod lines;
#[cfg(test)]
mod program;
#[cfg(test)]
mod writers;
