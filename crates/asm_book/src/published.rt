//! What readers take: a board with the history that it is the board of.
ghost use Rattle.std.specs.Prelude.{◌≡◌, ◌≤◌, length, IfOk, IfSome, MatchBool};
ghost use Rattle.std.specs.Arc.{arc_value};
ghost use mathlib.Core.List.{IsPrefix};
ghost use Rattle.asm_board.specs.Boards.{board_of};
ghost use Rattle.asm_book.specs.Rules.{IsOf};

use crate::front::Front;
use crate::opening::{Law, Opening};
use asm_board::{Board, Entry};
use crossbeam_utils::rule::{Outcome, Protocol};
use left_right::Absorb;
use left_right::reader::Reader;
use left_right::writer::Writer;
use logbook::Seen;
use std::alloc::AllocError;
use std::marker::{Model, PhantomData};
use std::sync::{Arc, Wait};

/// A board, and how much of which history it is of. Contracts see both.
#[derive(Drop)]
pub struct Published {
    board: Arc<Board>,
    count: u64,
    seen: Seen<Entry, u64, Law>,
}

impl Model for Published {
    ghost use Rattle.std.specs.Prelude.{◌≡◌, length};
    ghost use Rattle.std.specs.Arc.{arc_value};
    ghost use Rattle.std.specs.Coded.{codes};
    ghost use Rattle.asm_portable.specs.contracts.port.Port as port;
    ghost use Rattle.asm_value.specs.contracts.domain.Domain as domain;
    ghost use Rattle.asm_value.specs.contracts.value.Value as value;
    ghost use Rattle.asm_program.specs.contracts.trees.Term as term;
    ghost use Rattle.asm_program.specs.contracts.trees.Rule as rule;
    ghost use Rattle.asm_value.specs.contracts.location.Location as location;
    ghost use Rattle.asm_value.specs.Location.{location_cmp};
    ghost use Rattle.std.specs.FinMap as map;
    ghost use Rattle.asm_book.specs.Rules.{Notice};

    ghost Value = { Notice };

    ghost coded = { Prim.hlevel (
      codes,
      port.the_row.coded,
      domain.the_row.coded,
      value.the_row.coded,
      term.the_row.coded,
      rule.the_row.coded,
      map.code {R = location_cmp} location.the_row.coded value.the_row.coded,
    ) };

    ghost view = { λ p. record {
      book = p.seen.book;
      log = p.seen.log;
      board = arc_value p.board;
    } };

    ghost invariant = { λ p. p.count ≡ length p.seen.log };
}

impl Published {
    pub(crate) fn new<L: Opening>(board: Arc<Board>, front: &Front<L>) -> Published
        requires { arc_value board ≡ board_of L.meanings front.now }
        ensures of { IsOf L.meanings L.history L.room result }
        ensures log { result.log ≡ front.now }
    {
        Published {
            board,
            count: front.len(),
            seen: front.seen(),
        }
    }

    pub fn again(&self) -> Result<Published, AllocError>
        ensures { IfOk result (λ p. p ≡ self.now) }
    {
        Ok(Published {
            board: Arc::try_clone(&self.board)?,
            count: self.count,
            seen: self.seen.again(),
        })
    }

    /// Its board and its history, if that is no shorter than what was seen.
    fn after<L: Opening>(&self, seen: &Front<L>) -> Option<(Arc<Board>, Front<L>)>
        requires { IsOf L.meanings L.history L.room self.now }
        ensures board { IfSome result (λ r. arc_value r.0 ≡ board_of L.meanings r.1) }
        ensures later { IfSome result (λ r. IsPrefix seen.now r.1) }
    {
        let front = Front::of(self.count, self.seen.again());
        if front.len() < seen.len() {
            return None;
        }
        seen.begins(&front);
        let board = Arc::try_clone(&self.board).ok()?;
        Some((board, front))
    }
}

/// An operation sets the whole board.
impl Absorb<Published> for Published {
    type State = Published;

    ghost state = { λ p. p };

    ghost applied = { λ s next. next };

    fn absorb_first(
        &mut self,
        operation: &Published,
        _other: &Published,
    ) -> Result<(), AllocError> {
        *self = operation.again()?;
        Ok(())
    }

    fn absorb_second(&mut self, operation: Published, _other: &Published) -> Result<(), Published> {
        *self = operation;
        Ok(())
    }
}

/// What is published is legal, of this opening, and never goes back. A view is a number of entries
/// that were seen.
pub struct Rises<L> {
    of: PhantomData<L>,
}

impl<L: Opening> Protocol<Published, u64> for Rises<L> {
    ghost use Rattle.asm_book.specs.Rules.{Shows};

    ghost holds = { Shows L.meanings L.history L.room };

    ghost first = { 0 };
}

pub(crate) struct Sees<L> {
    of: PhantomData<L>,
}

impl<L: Opening> Outcome<Published, u64> for Sees<L> {
    ghost use Rattle.asm_book.specs.Rules.{Steps};

    ghost then = { Steps L.meanings L.history L.room };
}

pub type BoardReader<L> = Reader<Published, u64, Rises<L>>;

pub type BoardWriter<L> = Writer<Published, Published, u64, Rises<L>>;

/// One seat's reader, and the history that its seat has seen. Contracts see it as that history.
#[derive(Drop)]
pub struct SeatReader<L: Opening> {
    reader: Option<BoardReader<L>>,
    front: Front<L>,
}

impl<L: Opening> Model for SeatReader<L> {
    ghost use Rattle.std.specs.Prelude.{List};
    ghost use Rattle.std.specs.Coded.{codes};
    ghost use Rattle.asm_portable.specs.contracts.port.Port as port;
    ghost use Rattle.asm_board.specs.declared.entry.Entry.{Entry};

    ghost Value = { List Entry };

    ghost coded = { Prim.hlevel (codes, port.the_row.coded) };

    ghost view = { λ s. s.front };
}

impl<L: Opening> SeatReader<L> {
    pub fn new(reader: BoardReader<L>, front: Front<L>) -> SeatReader<L>
        ensures { result ≡ front }
    {
        SeatReader {
            reader: Some(reader),
            front,
        }
    }

    pub fn front(&self) -> &Front<L>
        ensures { result.now ≡ self.now }
    {
        &self.front
    }

    /// Takes in a history that is no shorter than what was seen.
    pub(crate) fn catch_up(&mut self, front: &Front<L>)
        requires { IsPrefix self.old front.now }
        ensures { self.new ≡ front.now }
    {
        self.front = front.again();
    }

    /// Takes in a history if it is longer than what was seen.
    pub fn learn(&mut self, front: &Front<L>)
        ensures theirs { IsPrefix front.now self.new }
        ensures later { IsPrefix self.old self.new }
    {
        if self.front.len() < front.len() {
            self.front.begins(front);
            self.front = front.again();
        } else {
            front.begins(&self.front);
        }
    }

    /// Takes the board that is published, if it is let in and the board is no older than what the
    /// seat has seen.
    pub fn enter(&mut self) -> Option<Arc<Board>>
        ensures later { IsPrefix self.old self.new }
        ensures board { IfSome result (λ b. arc_value b ≡ board_of L.meanings self.new) }
    {
        let reader = self.reader.take()?;
        match reader.enter_as::<Sees<L>>() {
            Ok(reading) => {
                let found = reading.get().after(&self.front);
                self.reader = Some(reading.leave());
                let (board, front) = found?;
                self.front = front;
                Some(board)
            }
            Err(reader) => {
                self.reader = Some(reader);
                None
            }
        }
    }
}

// Tries once to publish a board, and says whether it did.
fn offer<L: Opening, R: Wait>(
    rt: &R,
    writer: BoardWriter<L>,
    next: &Published,
) -> (BoardWriter<L>, bool)
    requires of { IsOf L.meanings L.history L.room next.now }
    requires later { length writer.desk.shown.value.log ≤ length next.now.log }
    ensures { MatchBool result.1 (result.0.desk.shown.value ≡ next.now)
        (result.0.desk.shown.value ≡ writer.desk.shown.value) }
{
    let mut writer = writer;
    let Ok(operation) = next.again() else {
        return (writer, false);
    };
    match writer.append(operation) {
        Ok(()) => {}
        Err(_) => return (writer, false),
    }
    let (writer, published) = writer.publish_as::<Sees<L>, R>(rt);
    match published {
        Ok(()) => (writer, true),
        Err(_) => (writer, false),
    }
}

/// Publishes a board. It waits for readers that still read what was published before.
pub(crate) fn show<L: Opening, R: Wait>(
    rt: &R,
    writer: BoardWriter<L>,
    next: &Published,
) -> BoardWriter<L>
    requires of { IsOf L.meanings L.history L.room next.now }
    requires later { length writer.desk.shown.value.log ≤ length next.now.log }
    ensures { result.desk.shown.value ≡ next.now }
{
    let mut writer = writer;
    for _ in rt.forever() {
        let (after, done) = offer(rt, writer, next);
        writer = after;
        if done {
            return writer;
        }
    }
    unreachable!()
}

/// The writer, and the runtime by which it waits. Its drop waits for the readers.
pub struct BoardHandle<L: Opening, R: Wait + Drop> {
    pub(crate) writer: BoardWriter<L>,
    rt: R,
}

impl<L: Opening, R: Wait + Drop> Drop for BoardHandle<L, R> {
    fn drop(self) {
        let Self { writer, rt } = self;
        drop(writer.take(&rt));
    }
}

impl<L: Opening, R: Wait + Drop> BoardHandle<L, R> {
    pub fn new(writer: BoardWriter<L>, rt: R) -> BoardHandle<L, R>
        ensures { result.writer ≡ writer }
    {
        BoardHandle { writer, rt }
    }

    pub(crate) fn show(self, next: &Published) -> BoardHandle<L, R>
        requires of { IsOf L.meanings L.history L.room next.now }
        requires later { length self.writer.desk.shown.value.log ≤ length next.now.log }
        ensures { result.writer.desk.shown.value ≡ next.now }
    {
        let Self { writer, rt } = self;
        let writer = show(&rt, writer, next);
        BoardHandle { writer, rt }
    }
}
