//! Entries of a journal.
use crate::call::Call;
use crate::reply::Body;

/// An accepted change.
#[derive(Debug, Drop)]
pub struct Entry {
    /// Whose call it was, from 0.
    pub seat: u32,
    /// Its number in the journal, from 1. It is the version of each model that it changed.
    pub number: u64,
    pub call: Call,
    /// What was answered.
    pub body: Body,
}
