//! Calls: what a client may ask for.
ghost use Rattle.std.specs.Prelude.{◌≡◌, ◌≤◌, sum_by, IfOk};
ghost use Rattle.asm_portable.specs.Weights.{whole_weight};
ghost use Rattle.asm_board.specs.Calls as spec;
ghost use Rattle.asm_board.specs.declared.call.Call.TheVariants as calls;

use asm_portable::Port;
use asm_value::Text;
use std::alloc::{AllocError, Global};

/// A request, with its fields in their order. A change adds an entry to the journal where it is
/// accepted; a read shows what there is, after so many entries at least as its `since` says.
#[derive(Debug, Drop)]
pub enum Call {
    /// A read: some steps of a text that isn't kept.
    Run {
        text: Text,
        steps: u64,
        pick: Option<u64>,
        since: u64,
    },
    /// A change: a new model of a text, in its initial state.
    Load {
        name: Text,
        text: Text,
    },
    /// A change: the model goes.
    Unload {
        name: Text,
    },
    /// A change: one step of each model of the formula, or of none. The inputs are fields by model,
    /// each with fields by function.
    Step {
        formula: Text,
        inputs: Port,
        pick: Option<u64>,
    },
    /// A read: what a model is.
    State {
        name: Text,
        since: u64,
    },
    /// A read: what the term of a text gives in a model's state.
    Value {
        name: Text,
        term: Text,
        since: u64,
    },
    /// A read: a model's text in its canonical form.
    ShowText {
        name: Text,
        since: u64,
    },
    /// A read: the models with their versions.
    Models {
        since: u64,
    },
    /// A read: so many entries of the journal from this number on.
    Log {
        from: u64,
        count: u64,
        since: u64,
    },
    /// A change: one more invariant of a model, the Boolean term of a text.
    AddInvariant {
        name: Text,
        inv: Text,
        term: Text,
    },
    /// A change: an invariant of a model goes.
    DropInvariant {
        name: Text,
        inv: Text,
    },
    /// A change: a model is again what it was at an earlier version.
    Rollback {
        name: Text,
        to: u64,
    },
}

/// What inputs weigh, which are no field where there are none.
fn inputs_weight(inputs: &Port) -> u64
    ensures { result ≡ spec.capped (sum_by whole_weight (spec.inputs_field inputs.now)) }
{
    match inputs.fields() {
        [] => 0,
        [_, ..] => inputs.weight(),
    }
}

/// What a pick weighs: 1 where it is there.
fn picked(pick: Option<u64>) -> u64
    ensures weight { result ≡ sum_by whole_weight (spec.pick_field pick) }
    ensures few { result ≤ 1 }
{
    match pick {
        Some(_) => 1,
        None => 0,
    }
}

/// What the least number of entries of a read weighs: 1 where it isn't 0.
fn sinced(since: u64) -> u64
    ensures weight { result ≡ sum_by whole_weight (spec.since_field since) }
    ensures few { result ≤ 1 }
{
    if since == 0 { 0 } else { 1 }
}

/// Copies of two texts.
fn both(alloc: Global, first: &Text, second: &Text) -> Result<(Text, Text), AllocError>
    ensures { IfOk result (λ copies. copies ≡ (first.now, second.now)) }
{
    let first = first.copy(alloc)?;
    Ok((first, second.copy(alloc)?))
}

/// A step with copies of these.
fn copy_step(
    alloc: Global,
    formula: &Text,
    inputs: &Port,
    pick: Option<u64>,
) -> Result<Call, AllocError>
    ensures { IfOk result (λ call. call ≡ calls.Step formula.now inputs.now pick) }
{
    let formula = formula.copy(alloc)?;
    Ok(Call::Step {
        formula,
        inputs: inputs.copy(alloc)?,
        pick,
    })
}

/// An invariant to be added, with copies of these.
fn copy_invariant(alloc: Global, name: &Text, inv: &Text, term: &Text) -> Result<Call, AllocError>
    ensures { IfOk result (λ call. call ≡ calls.AddInvariant name.now inv.now term.now) }
{
    let (name, inv) = both(alloc, name, inv)?;
    Ok(Call::AddInvariant {
        name,
        inv,
        term: term.copy(alloc)?,
    })
}

impl Call {
    /// Whether it may change the models. Takes no memory.
    pub fn is_change(&self) -> bool
        ensures { result ≡ spec.is_change self.now }
    {
        match self {
            Call::Load { .. }
            | Call::Unload { .. }
            | Call::Step { .. }
            | Call::AddInvariant { .. }
            | Call::DropInvariant { .. }
            | Call::Rollback { .. } => true,
            Call::Run { .. }
            | Call::State { .. }
            | Call::Value { .. }
            | Call::ShowText { .. }
            | Call::Models { .. }
            | Call::Log { .. } => false,
        }
    }

    /// Whether it asks for entries of the journal. Takes no memory.
    pub fn is_log(&self) -> bool
        ensures { result ≡ spec.is_log self.now }
    {
        match self {
            Call::Log { .. } => true,
            Call::Run { .. }
            | Call::Load { .. }
            | Call::Unload { .. }
            | Call::Step { .. }
            | Call::State { .. }
            | Call::Value { .. }
            | Call::ShowText { .. }
            | Call::Models { .. }
            | Call::AddInvariant { .. }
            | Call::DropInvariant { .. }
            | Call::Rollback { .. } => false,
        }
    }

    /// The number of entries after which a read is to be answered at least, 0 of a change. Takes no
    /// memory.
    pub fn since(&self) -> u64
        ensures { result ≡ spec.since_of self.now }
    {
        match self {
            Call::Run { since, .. }
            | Call::State { since, .. }
            | Call::Value { since, .. }
            | Call::ShowText { since, .. }
            | Call::Models { since }
            | Call::Log { since, .. } => *since,
            Call::Load { .. }
            | Call::Unload { .. }
            | Call::Step { .. }
            | Call::AddInvariant { .. }
            | Call::DropInvariant { .. }
            | Call::Rollback { .. } => 0,
        }
    }

    /// What it weighs: 1 and its fields other than the operation, a number weighing 1. 2^64 - 1
    /// stands for that and more. Takes no memory.
    pub fn weight(&self) -> u64
        ensures { result ≡ spec.capped (spec.call_weight self.now) }
    {
        match self {
            Call::Run {
                text,
                pick,
                since,
                ..
            } => text
                .weight()
                .saturating_add(2 + picked(*pick) + sinced(*since)),
            Call::Load { name, text } => name
                .weight()
                .saturating_add(text.weight())
                .saturating_add(1),
            Call::Unload { name } => name.weight().saturating_add(1),
            Call::State { name, since } | Call::ShowText { name, since } => {
                name.weight().saturating_add(1 + sinced(*since))
            }
            Call::Value { name, term, since } => name
                .weight()
                .saturating_add(term.weight())
                .saturating_add(1 + sinced(*since)),
            Call::Step {
                formula,
                inputs,
                pick,
            } => formula
                .weight()
                .saturating_add(inputs_weight(inputs))
                .saturating_add(1 + picked(*pick)),
            Call::Models { since } => 1 + sinced(*since),
            Call::Log { since, .. } => 3 + sinced(*since),
            Call::AddInvariant { name, inv, term } => name
                .weight()
                .saturating_add(inv.weight())
                .saturating_add(term.weight())
                .saturating_add(1),
            Call::DropInvariant { name, inv } => name
                .weight()
                .saturating_add(inv.weight())
                .saturating_add(1),
            Call::Rollback { name, .. } => name.weight().saturating_add(2),
        }
    }

    /// An equal call in memory of its own.
    pub fn copy(&self, alloc: Global) -> Result<Call, AllocError>
        ensures { IfOk result (λ call. call ≡ self.now) }
    {
        match self {
            Call::Run {
                text,
                steps,
                pick,
                since,
            } => Ok(Call::Run {
                text: text.copy(alloc)?,
                steps: *steps,
                pick: *pick,
                since: *since,
            }),
            Call::Load { name, text } => {
                let (name, text) = both(alloc, name, text)?;
                Ok(Call::Load { name, text })
            }
            Call::Unload { name } => Ok(Call::Unload {
                name: name.copy(alloc)?,
            }),
            Call::Step {
                formula,
                inputs,
                pick,
            } => copy_step(alloc, formula, inputs, *pick),
            Call::State { name, since } => Ok(Call::State {
                name: name.copy(alloc)?,
                since: *since,
            }),
            Call::Value { name, term, since } => {
                let (name, term) = both(alloc, name, term)?;
                Ok(Call::Value {
                    name,
                    term,
                    since: *since,
                })
            }
            Call::ShowText { name, since } => Ok(Call::ShowText {
                name: name.copy(alloc)?,
                since: *since,
            }),
            Call::Models { since } => Ok(Call::Models { since: *since }),
            Call::Log { from, count, since } => Ok(Call::Log {
                from: *from,
                count: *count,
                since: *since,
            }),
            Call::AddInvariant { name, inv, term } => copy_invariant(alloc, name, inv, term),
            Call::DropInvariant { name, inv } => {
                let (name, inv) = both(alloc, name, inv)?;
                Ok(Call::DropInvariant { name, inv })
            }
            Call::Rollback { name, to } => Ok(Call::Rollback {
                name: name.copy(alloc)?,
                to: *to,
            }),
        }
    }
}
