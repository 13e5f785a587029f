//! Changes of models: those that come and go, and that are what they were.
ghost use Rattle.std.specs.Prelude.{◌≡◌, [], ◌∷◌, None, IfOk};
ghost use Rattle.std.specs.List.{last_or};
ghost use Rattle.asm_board.specs.Changes as spec;
ghost use Rattle.asm_board.specs.Coming.{Comes};
ghost use Rattle.asm_portable.specs.Ports as ports;
ghost use Rattle.asm_core.specs.Language.{asmeta};

use crate::reads::found;
use crate::steps::started;
use crate::texts::program_in;
use asm_board::{Accepted, Board, Content, News, Refusal, Slot, Stop, TrailPair, is_identifier};
use asm_portable::Port;
use asm_trail::content_at;
use asm_value::{List, Shared, Text};
use std::alloc::{AllocError, Global};

/// The most bytes of a model's name.
const MOST_NAME_BYTES: usize = 64;

/// A change of one model that is told by a word: its new content, none where it goes.
pub(crate) fn done(
    alloc: Global,
    word: &str,
    name: &Text,
    content: Option<Shared<Content>>,
) -> Result<Accepted, AllocError>
    ensures { IfOk result (λ accepted. accepted ≡ record {
      ok = ports.text word.now;
      news = record { name = name.now; content = content } ∷ [];
    }) }
{
    let name = name.copy(alloc)?;
    let news = List::only(alloc, News { name, content })?;
    Ok(Accepted {
        ok: Port::from_text(alloc, word)?,
        news,
    })
}

/// Whether a model may have the name: an identifier of 1 to 64 bytes.
pub(crate) fn is_right_name(name: &str) -> bool
    ensures { result ≡ spec.is_right_name name.now }
{
    is_identifier(name) && name.len() <= MOST_NAME_BYTES
}

/// A new model in its initial state.
fn loaded(alloc: Global, name: &Text, text: &str) -> Result<Shared<Content>, Stop>
    ensures { Comes (λ content. content) (spec.loaded asmeta name.now text.now) result }
{
    let program = Shared::new(alloc, program_in(alloc, text)?)?;
    let content = started(alloc, name.as_str(), None, &program)?;
    Ok(Shared::new(alloc, content)?)
}

/// A new model of a text, in its initial state.
pub(crate) fn load(alloc: Global, board: &Board, name: &Text, text: &str) -> Result<Accepted, Stop>
    ensures { Comes (λ accepted. accepted)
        (spec.load asmeta board.now.slots name.now text.now) result }
{
    if !is_right_name(name.as_str()) {
        return Err(Stop::Refused(Refusal::bad_name(alloc)));
    }
    if let Some(slot) = board.slot(name) {
        let refusal = Refusal::name_taken(alloc, name.as_str(), slot.version)?;
        return Err(Stop::Refused(refusal));
    }
    let content = loaded(alloc, name, text)?;
    Ok(done(alloc, "loaded", name, Some(content))?)
}

/// A model that goes.
pub(crate) fn unload(alloc: Global, board: &Board, name: &Text) -> Result<Accepted, Stop>
    ensures { Comes (λ accepted. accepted) (spec.unload asmeta board.now.slots name.now) result }
{
    found(alloc, board, name)?;
    Ok(done(alloc, "unloaded", name, None)?)
}

/// The version of the newest pair, 0 where there is none.
#[tactic(auto, using(crate::proofs::Newest::last_is_newest))]
fn newest_of(pairs: &[TrailPair]) -> u64
    ensures { result ≡ spec.version_of_pair (last_or None pairs.now) }
{
    let mut newest = 0;
    for pair in pairs {
        newest = pair.version;
    }
    newest
}

/// The version of the oldest pair, 0 where there is none.
fn oldest_of(pairs: &[TrailPair]) -> u64
    ensures { result ≡ spec.version_of_pair (spec.oldest pairs.now) }
{
    match pairs {
        [first, ..] => first.version,
        [] => 0,
    }
}

/// The refusal of a version that a model's trail lacks.
fn not_in_trail(alloc: Global, name: &Text, slot: &Slot) -> Result<Refusal, AllocError>
    ensures { IfOk result (λ refusal. refusal ≡ spec.lacks_version name.now slot.now) }
{
    let pairs = slot.trail.get().pairs.as_slice();
    Refusal::not_in_trail(alloc, name.as_str(), newest_of(pairs), oldest_of(pairs))
}

/// A model that is what it was at an earlier version.
pub(crate) fn rollback(alloc: Global, board: &Board, name: &Text, to: u64) -> Result<Accepted, Stop>
    ensures { Comes (λ accepted. accepted)
        (spec.rollback asmeta board.now.slots name.now to) result }
{
    let slot = found(alloc, board, name)?;
    match content_at(slot, to) {
        Some(content) => Ok(done(alloc, "rolled", name, Some(content.share()?))?),
        None => Err(Stop::Refused(not_in_trail(alloc, name, slot)?)),
    }
}
