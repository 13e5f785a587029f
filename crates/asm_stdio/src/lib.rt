//! The program over any source and sink: requests, a line each, are answered by a line each.
#![tactic(auto)]

mod answer;
mod demo;
mod host;
mod laws;
mod run;
mod serve;
mod words;

pub use host::run_on_host;
pub use laws::a_transcript_fixes_its_bytes;
pub use run::run_plain;
