//! Logs: what a client is shown of the journal.
ghost use Rattle.std.specs.Prelude.{◌≡◌, ◌+◌, ◌-◌, ℕ, List, length, take, drop, true, IfOk};
ghost use Rattle.asm_board.specs.declared.entry.Entry.{Entry as Entries};
ghost use Rattle.asm_board.specs.Calls.{is_log};
ghost use Rattle.asm_board.specs.Logs as spec;
ghost use Rattle.asm_board.specs.Answers.{answer};
ghost use Rattle.asm_board.specs.Replies.{reply_of};
ghost use Rattle.asm_core.specs.Language.{asmeta};

use asm_board::{Body, Call, Entry, Refusal, Reply};
use asm_showing::log_shown;
use std::alloc::{AllocError, Global};

/// So many entries from this number on, as far as there are such.
fn part_of(entries: &[Entry], from: u64, count: u64) -> &[Entry]
    ensures { result.now ≡ drop (from - 1) (take (from + count - 1) entries.now) }
{
    let most = entries.len() as u64;
    let end = from.saturating_add(count).saturating_sub(1).min(most);
    let rest = &entries[..end as usize];
    let start = from.saturating_sub(1).min(end);
    &rest[start as usize..]
}

/// The entries of a journal for which a log asks.
pub(crate) fn asked_of<'a>(journal: &'a [Entry], call: &Call) -> &'a [Entry]
    ensures { result.now ≡ spec.asked_of call.now journal.now }
{
    match call {
        Call::Log { from, count, .. } => part_of(journal, *from, *count),
        Call::Run { .. }
        | Call::Load { .. }
        | Call::Unload { .. }
        | Call::Step { .. }
        | Call::State { .. }
        | Call::Value { .. }
        | Call::ShowText { .. }
        | Call::Models { .. }
        | Call::AddInvariant { .. }
        | Call::DropInvariant { .. }
        | Call::Rollback { .. } => &[],
    }
}

/// What a log of these entries tells after so many, or that it is to be answered after more.
fn log_body(alloc: Global, entries: &[Entry], front: u64, call: &Call) -> Result<Body, AllocError>
    ensures { IfOk result (λ body. body ≡ spec.log_body front entries.now call.now) }
{
    if call.since() > front {
        return Ok(Body::No(Refusal::ahead(alloc, front)?));
    }
    Ok(Body::Ok(log_shown(alloc, entries)?))
}

/// The answer to a log after a journal of so many entries, of which these are the ones for which it
/// asks. `AllocError` is want of memory.
pub fn answer_log(
    alloc: Global,
    entries: &[Entry],
    front: u64,
    call: &Call,
) -> Result<Reply, AllocError>
    ensures told { IfOk result
        (λ reply. reply ≡ reply_of front (spec.log_body front entries.now call.now)) }

    // it is the one-thread server's
    ensures answer { (room seat : ℕ) (journal : List Entries) → is_log call.now ≡ true
        → length journal ≡ front → entries.now ≡ spec.asked_of call.now journal
        → IfOk result (λ reply. reply ≡ (answer asmeta room journal seat call.now).reply) }
{
    let body = log_body(alloc, entries, front, call)?;
    Reply::new(alloc, front, body)
}
