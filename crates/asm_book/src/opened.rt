//! How a book is opened.
ghost use Rattle.std.specs.Prelude.{◌≡◌, ◌<◌, ◌≤◌, ℕ, [], replicate, IfOk, Err};
ghost use Rattle.std.specs.Arc.{arc_value};
ghost use Rattle.asm_board.specs.Boards.{empty_board};
ghost use Rattle.asm_book.specs.Faults.{Rose};
ghost use Rattle.asm_book.specs.Gathered.{fresh_from};
ghost use Rattle.asm_book.specs.LockedJournals.{most_room};

use crate::book::Book;
use crate::front::Front;
use crate::locked::LockedJournal;
use crate::opening::{Opening, Unopened};
use crate::published::{BoardHandle, BoardWriter, Published, SeatReader};
use crate::refusal::OpenRefusal;
use crate::token::Token;
use asm_board::Board;
use left_right::writer::Writer;
use std::alloc::{AllocError, Global};
use std::sync::ledger::Share;
use std::sync::{Arc, Mutex, Wait};

/// A published board with one reader a seat. It is not `Drop`.
pub struct Snapshots<L: Opening> {
    /// What publishes later boards.
    pub writer: BoardWriter<L>,
    /// In the order of the seats.
    pub readers: Vec<SeatReader<L>>,
}

/// Why there are no snapshots: the making failed, or memory was wanting.
#[derive(Clone, Copy)]
pub enum MakeEnd {
    /// A reader was refused; the maker has counted it.
    Failed,
    /// Memory ran out.
    NoMemory,
}

/// What makes the published board and its readers.
pub trait Maker {
    ghost faults: { Self → ℕ };

    /// Publishes the empty board, with a reader for each of 1 to 64 seats. `Failed` where a reader
    /// is refused, which is counted; `NoMemory` where memory is wanting.
    fn make<L: Opening, R: Wait>(
        &mut self,
        rt: &R,
        alloc: Global,
        front: &Front<L>,
        board: Arc<Board>,
        seats: u32,
    ) -> Result<Snapshots<L>, MakeEnd>
        requires board { (front.now ≡ []) × (arc_value board ≡ empty_board) }
        requires seats { (0 < seats) × (seats ≤ 64) }
        ensures shown { IfOk result (λ s. s.writer.desk.shown.value.log ≡ []) }
        ensures readers { IfOk result (λ s. s.readers.items ≡ replicate seats []) }
        ensures cause { result ≡ Err MakeEnd.Failed → Rose (faults self.old) (faults self.new) }
        ensures later { faults self.old ≤ faults self.new };
}

/// Makes them by `left_right`.
#[derive(Drop)]
pub struct RealMaker {
    faults: u64,
}

impl RealMaker {
    /// A maker that has counted no fault yet. Takes no memory.
    pub fn new() -> RealMaker {
        RealMaker { faults: 0 }
    }
}

/// A reader for each seat. `Failed` where one is refused.
fn read_all<L: Opening>(
    alloc: Global,
    writer: &BoardWriter<L>,
    front: &Front<L>,
    seats: u32,
) -> Result<Vec<SeatReader<L>>, MakeEnd>
    requires { front.now ≡ [] }
    ensures { IfOk result (λ v. v.items ≡ replicate seats []) }
{
    let mut readers = Vec::new(alloc);
    for _seat in 0..seats {
        let Ok(reader) = writer.factory().reader() else {
            return Err(MakeEnd::Failed);
        };
        if readers
            .push(SeatReader::new(reader, front.again()))
            .is_err()
        {
            return Err(MakeEnd::NoMemory);
        }
    }
    Ok(readers)
}

fn write_first<L: Opening>(
    alloc: Global,
    front: &Front<L>,
    board: Arc<Board>,
    seats: u32,
) -> Result<BoardWriter<L>, AllocError>
    requires board { (front.now ≡ []) × (arc_value board ≡ empty_board) }
    requires seats { (0 < seats) × (seats ≤ 64) }
    ensures { IfOk result (λ w. w.desk.shown.value.log ≡ []) }
{
    let first = Published::new(Arc::try_clone(&board)?, front);
    let second = Published::new(board, front);
    Writer::new(alloc, first, second, seats as usize)
}

impl Maker for RealMaker {
    ghost faults = { λ m. m.faults };

    fn make<L: Opening, R: Wait>(
        &mut self,
        rt: &R,
        alloc: Global,
        front: &Front<L>,
        board: Arc<Board>,
        seats: u32,
    ) -> Result<Snapshots<L>, MakeEnd> {
        let Ok(writer) = write_first(alloc, front, board, seats) else {
            return Err(MakeEnd::NoMemory);
        };
        match read_all(alloc, &writer, front, seats) {
            Ok(readers) => Ok(Snapshots { writer, readers }),
            Err(end) => {
                drop(writer.take(rt));
                self.faults = self.faults.saturating_add(1);
                Err(end)
            }
        }
    }
}

// A token for each reader, with a part of the ledger each.
fn deal<L: Opening>(
    alloc: Global,
    mut readers: Vec<SeatReader<L>>,
    share: &mut Share<L>,
) -> Result<Vec<Token<L>>, AllocError>
    requires readers { readers.items ≡ replicate L.seats [] }
    requires share { (share.old.parts ≡ L.seats) × (share.old.amount ≡ 0) }
    requires few { L.seats ≤ 64 }
    ensures { IfOk result (λ v. v.items ≡ fresh_from 0 L.seats) }
{
    let mut tokens = Vec::new(alloc);
    let mut seat = 0u32;
    while let Some(reader) = readers.pop() {
        let part = share.split_off(1, 0);
        tokens.push(Token::new(alloc, seat, reader, part))?;
        seat += 1;
    }
    Ok(tokens)
}

/// Opens a book with an empty journal, and a token for each of 1 to 64 seats, in their order. The
/// room is that of the journal, in units of weight. `NoReader` where the maker fails, `NoMemory`
/// where memory is wanting: what was not opened yet is given up then.
pub fn open_book<L: Opening, M: Maker, R: Wait + Drop>(
    rt: R,
    alloc: Global,
    unopened: Unopened,
    maker: &mut M,
    seats: u32,
    room: u64,
) -> Result<(Book<L, R>, Vec<Token<L>>), OpenRefusal>
    requires seats { (0 < seats) × (seats ≤ 64) × (L.seats ≡ seats) }
    requires room { (room ≤ most_room) × (L.room ≡ room) }
    requires ledger { (unopened.blank.name ≡ L.name) × (unopened.blank.parts ≡ L.parts)
        × (L.parts ≡ seats) }
    requires history { unopened.seen.book ≡ L.history }
    ensures tokens { IfOk result (λ r. r.1.items ≡ fresh_from 0 seats) }
    ensures cause { result ≡ Err OpenRefusal.NoReader
        → Rose (M.faults maker.old) (M.faults maker.new) }
{
    let (blank, head, front) = unopened.named::<L>();
    let (total, mut rest) = blank.open::<L>();
    let Ok(board) = first_board(alloc) else {
        return Err(OpenRefusal::NoMemory);
    };
    let Ok(shown) = Arc::try_clone(&board) else {
        return Err(OpenRefusal::NoMemory);
    };
    let snapshots = match maker.make(&rt, alloc, &front, shown, seats) {
        Ok(snapshots) => snapshots,
        Err(MakeEnd::Failed) => return Err(OpenRefusal::NoReader),
        Err(MakeEnd::NoMemory) => return Err(OpenRefusal::NoMemory),
    };
    let Snapshots { writer, readers } = snapshots;
    let writer = BoardHandle::new(writer, rt);
    let none = rest.empty();
    let Ok(tokens) = deal(alloc, readers, &mut rest) else {
        return Err(OpenRefusal::NoMemory);
    };
    let journal = LockedJournal::new(alloc, head, front, board, writer, total, none, room);
    Ok((
        Book {
            journal: Mutex::new(journal),
        },
        tokens,
    ))
}

fn first_board(alloc: Global) -> Result<Arc<Board>, AllocError>
    ensures { IfOk result (λ b. arc_value b ≡ empty_board) }
{
    Ok(Arc::new(alloc, Board::new(alloc))?)
}
