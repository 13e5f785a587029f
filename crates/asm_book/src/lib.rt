//! The book: one journal of several seats under a lock, whose boards are published to readers that
//! wait for nobody.
#![tactic(auto)]

mod book;
mod failing_maker;
mod front;
mod gate;
mod locked;
mod memory_gate;
mod opened;
mod opening;
mod published;
mod refusal;
mod settle;
mod token;

pub use book::{Book, Held, gather, meet};
pub use failing_maker::FailingMaker;
pub use front::{Front, Head};
pub use gate::{Gate, Look, Still};
pub use locked::LockedJournal;
pub use memory_gate::MemoryGate;
pub use opened::{MakeEnd, Maker, RealMaker, Snapshots, open_book};
pub use opening::{Opening, Unopened};
pub use published::{BoardHandle, BoardReader, BoardWriter, Published, SeatReader};
pub use refusal::{CommitRefusal, OpenRefusal};
pub use token::Token;
