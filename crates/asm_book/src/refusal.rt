//! Why a book isn't opened, and why a commit is refused.
use asm_board::Board;
use asm_value::Text;
use std::sync::Arc;

/// Why a book wasn't opened.
#[derive(Clone, Copy, Debug, PartialEq, Eq)]
pub enum OpenRefusal {
    /// The maker of the published board and its readers failed.
    NoReader,
    /// Memory ran out.
    NoMemory,
}

/// Why a commit was refused. The journal and the seat's own entries are as they were.
#[derive(Drop)]
pub enum CommitRefusal {
    /// A model's version is another at the board that is handed back, which the token has seen.
    Stale {
        model: Text,
        /// The version with which the change was prepared.
        had: u64,
        /// The version at the board.
        now: u64,
        board: Arc<Board>,
    },
    /// Memory ran out. It says nothing about the change.
    NoMemory,
}
