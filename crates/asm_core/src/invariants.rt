//! Invariants that are added to models and dropped.
ghost use Rattle.std.specs.Prelude.{◌≡◌, ◌≤◌, ℕ, ◌++◌, [], ◌∷◌, not, min, decimal, filter, length, IfOk};
ghost use Rattle.std.specs.Str.{bytes_eq};
ghost use Rattle.asm_syntax.specs.Texts.{most_bytes};
ghost use Rattle.asm_board.specs.Refusals as refusals;
ghost use Rattle.asm_board.specs.Contents.{IsContent};
ghost use Rattle.asm_board.specs.Changes as spec;
ghost use Rattle.asm_board.specs.Coming.{Comes};
ghost use Rattle.asm_core.specs.Works.{told_with};
ghost use Rattle.asm_core.specs.Language.{asmeta};

use crate::changes::done;
use crate::reads::found;
use crate::texts::condition_in;
use asm_board::{Accepted, Board, Content, Refusal, Stop};
use asm_invariant::first_broken;
use asm_program::{BadText, CheckedTerm, Inv, Program};
use asm_showing::broken;
use asm_state::State;
use asm_syntax::{place, within};
use asm_types::work_of;
use asm_value::{List, Shared, Text};
use std::alloc::{AllocError, Global};

/// The most invariants of a model.
const MOST_INVARIANTS: usize = 64;

/// The most work of a text and of the invariants that were added to it.
const MOST_WORK: u64 = 1 << 24;

/// No greater work is told.
const MOST_WORK_TOLD: u64 = 1 << 32;

/// Whether the content has an invariant of the name.
fn has_invariant(content: &Content, name: &str) -> bool
    ensures { result ≡ spec.has_invariant content.now name.now }
{
    let invs = content.invs().get().as_slice();
    for inv in invs {
        if name == inv.get().name.as_str() {
            return true;
        }
    }
    false
}

/// A work with that of an invariant, where it was added, as it is told.
fn with_work(alloc: Global, program: &Program, work: u64, inv: &Inv) -> Result<u64, AllocError>
    ensures { IfOk result (λ both. both ≡ told_with program.now work inv.now) }
{
    if !inv.added {
        return Ok(work);
    }
    let more = work_of(alloc, program, inv.term.get())?;
    Ok(work.saturating_add(more).min(MOST_WORK_TOLD))
}

/// The work of the text and of the invariants that were added to it, as it is told.
fn whole_work(alloc: Global, content: &Content) -> Result<u64, AllocError>
    ensures { IfOk result (λ work. work ≡ min (spec.whole_work content.now) spec.most_work_told) }
{
    let program = content.program().get();
    let invs = content.invs().get().as_slice();
    let mut work = program.work.min(MOST_WORK_TOLD);
    for inv in invs {
        work = with_work(alloc, program, work, inv.get())?;
    }
    Ok(work)
}

/// The digits of a number.
fn digits_of(alloc: Global, number: u64) -> Result<Text, AllocError>
    ensures { IfOk result (λ digits. digits ≡ decimal number) }
{
    let digits = format!(in alloc; "{number}")?;
    Text::from_str(alloc, digits.as_str())
}

/// The refusal of a term with whose work there would be this much.
fn too_much_work(
    alloc: Global,
    text: &str,
    term: &CheckedTerm,
    work: u64,
) -> Result<Refusal, AllocError>
    requires { length text.now ≤ most_bytes }
    ensures { (whole : ℕ) → work ≡ min whole spec.most_work_told → IfOk result (λ refusal. refusal
        ≡ refusals.bad_text (spec.too_much_work text.now term.now whole)) }
{
    let there = place(text, within(text, term.start));
    let bad = BadText {
        kind: Text::from_str(alloc, "TooMuchWork")?,
        more: digits_of(alloc, work)?,
        line: there.line,
        column: there.column,
    };
    Refusal::bad_text(alloc, &bad)
}

/// The invariants with one more behind them.
fn with_one(
    alloc: Global,
    invs: &[Shared<Inv>],
    inv: Shared<Inv>,
) -> Result<List<Shared<Inv>>, AllocError>
    ensures { IfOk result (λ all. all ≡ invs.now ++ inv ∷ []) }
{
    let mut all = List::new(alloc);
    for other in invs {
        all.push(other.share()?)?;
    }
    all.push(inv)?;
    Ok(all)
}

/// The invariants of other names.
fn without_one(
    alloc: Global,
    invs: &[Shared<Inv>],
    name: &str,
) -> Result<List<Shared<Inv>>, AllocError>
    ensures { IfOk result
        (λ others. others ≡ filter (λ inv. not (bytes_eq name.now inv.name)) invs.now) }
{
    let mut others = List::new(alloc);
    for other in invs {
        if name != other.get().name.as_str() {
            others.push(other.share()?)?;
        }
    }
    Ok(others)
}

/// An invariant that is added, of a term with its text.
fn added_invariant(
    alloc: Global,
    name: &Text,
    source: &Text,
    term: CheckedTerm,
) -> Result<Shared<Inv>, AllocError>
    ensures { IfOk result
        (λ inv. inv ≡ spec.added_invariant name.now source.now term) }
{
    let CheckedTerm { term, .. } = term;
    let inv = Inv {
        name: name.copy(alloc)?,
        added: true,
        source: source.copy(alloc)?,
        term,
    };
    Shared::new(alloc, inv)
}

/// A program in a state with these invariants, which hold.
fn with_invariants(
    alloc: Global,
    program: &Shared<Program>,
    state: &Shared<State>,
    invs: List<Shared<Inv>>,
) -> Result<Shared<Content>, AllocError>
    requires { IsContent (record { program = program.now; invs = invs; state = state.now }) }
    ensures { IfOk result (λ content. content
        ≡ record { program = program.now; invs = invs; state = state.now }) }
{
    let invs = Shared::new(alloc, invs)?;
    let program = program.share()?;
    let state = state.share()?;
    Shared::new(alloc, Content::new(program, invs, state))
}

/// The content with one more invariant, which has to hold.
fn with_invariant(
    alloc: Global,
    model: &Text,
    content: &Content,
    inv: Shared<Inv>,
) -> Result<Shared<Content>, Stop>
    ensures { Comes (λ content. content)
        (spec.with_held asmeta model.now content.now inv) result }
{
    let program = content.program();
    let state = content.state();
    let alone = List::only(alloc, inv.share()?)?;
    match first_broken(alloc, program.get(), &alone, state.get())? {
        Some(name) => Err(Stop::Refused(broken(alloc, model.as_str(), None, name.as_str())?)),
        None => {
            let invs = with_one(alloc, content.invs().get().as_slice(), inv)?;
            Ok(with_invariants(alloc, program, state, invs)?)
        }
    }
}

/// The content with one more invariant of a text: its own work, and that of all together, isn't too
/// much, and it holds.
fn added(
    alloc: Global,
    model: &Text,
    content: &Content,
    name: &Text,
    source: &Text,
) -> Result<Shared<Content>, Stop>
    ensures { Comes (λ content. content)
        (spec.added asmeta model.now content.now name.now source.now) result }
{
    let text = source.as_str();
    let term = condition_in(alloc, content.program().get(), text)?;
    let work = whole_work(alloc, content)?.saturating_add(term.work);
    if work > MOST_WORK {
        let told = work.min(MOST_WORK_TOLD);
        return Err(Stop::Refused(too_much_work(alloc, text, &term, told)?));
    }
    let inv = added_invariant(alloc, name, source, term)?;
    with_invariant(alloc, model, content, inv)
}

/// One more invariant of a model, the Boolean term of a text.
pub(crate) fn add_invariant(
    alloc: Global,
    board: &Board,
    name: &Text,
    inv: &Text,
    source: &Text,
) -> Result<Accepted, Stop>
    ensures { Comes (λ accepted. accepted) (spec.add_invariant asmeta
        board.now.slots name.now inv.now source.now) result }
{
    let content = found(alloc, board, name)?.content.get();
    if has_invariant(content, inv.as_str()) {
        let refusal = Refusal::inv_taken(alloc, inv.as_str(), name.as_str())?;
        return Err(Stop::Refused(refusal));
    }
    if content.invs().get().len() >= MOST_INVARIANTS {
        let refusal = Refusal::invs_full(alloc, MOST_INVARIANTS as u64, name.as_str())?;
        return Err(Stop::Refused(refusal));
    }
    let content = added(alloc, name, content, inv, source)?;
    Ok(done(alloc, "added", name, Some(content))?)
}

/// The content without the invariant of a name.
fn dropped(alloc: Global, content: &Content, name: &str) -> Result<Shared<Content>, AllocError>
    ensures { IfOk result (λ new. new ≡ spec.without_invariant content.now name.now) }
{
    let invs = without_one(alloc, content.invs().get().as_slice(), name)?;
    with_invariants(alloc, content.program(), content.state(), invs)
}

/// An invariant of a model that goes.
pub(crate) fn drop_invariant(
    alloc: Global,
    board: &Board,
    name: &Text,
    inv: &Text,
) -> Result<Accepted, Stop>
    ensures { Comes (λ accepted. accepted)
        (spec.drop_invariant asmeta board.now.slots name.now inv.now) result }
{
    let content = found(alloc, board, name)?.content.get();
    if !has_invariant(content, inv.as_str()) {
        let refusal = Refusal::unknown_inv(alloc, inv.as_str(), name.as_str())?;
        return Err(Stop::Refused(refusal));
    }
    let content = dropped(alloc, content, inv.as_str())?;
    Ok(done(alloc, "dropped", name, Some(content))?)
}
