//! Bytes in and bytes out: sources, sinks, and lines read within a budget.
#![tactic(auto)]

mod adapters;
mod laws;
mod line_buf;
mod memory;
mod stream;
mod writing;

pub use adapters::{ReadSource, WriteSink};
pub use laws::pieces_lose_nothing;
pub use line_buf::{IoEnd, LineBuf, LineEnd, read_line};
pub use memory::{MemorySink, MemorySource};
pub use stream::{Failed, SessionEnd, Sink, Source};
pub use writing::write_whole;
