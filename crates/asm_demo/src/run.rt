//! A server that is asked, and what it has answered so far.
ghost use Rattle.std.specs.Prelude.{◌≡◌, IfOk, OnOk};
ghost use Rattle.asm_demo.specs.Calls as calls;
ghost use Rattle.asm_demo.specs.Runs as spec;

use crate::calls::{add_cap, load, roll_back, state, step};
use asm_board::{Body, Call, Reply};
use asm_core::One;
use asm_portable::Port;
use std::alloc::{AllocError, Global};

/// What the entries of the journal may weigh.
const JOURNAL_ROOM: u64 = 1 << 23;

/// How many steps come before the invariant.
const STEPS: u64 = 20;

/// A server, and what it has answered.
#[derive(Drop)]
pub(crate) struct Run {
    pub one: One,
    /// How many calls were refused.
    pub refused: u64,
    /// What was answered to the newest call that wasn't refused.
    pub shown: Port,
}

impl Run {
    /// A new server, of which nothing was asked.
    fn new(alloc: Global) -> Result<Run, AllocError>
        ensures { IfOk result (λ run. run ≡ spec.started) }
    {
        Ok(Run {
            one: One::new(alloc, JOURNAL_ROOM)?,
            refused: 0,
            shown: Port::Null,
        })
    }

    /// Asks a call.
    #[tactic(auto, unfolding(crate::specs::Runs::asked))]
    fn ask(&mut self, alloc: Global, call: Call) -> Result<(), AllocError>
        ensures { OnOk result (self.new ≡ spec.asked self.old call) }
    {
        let Reply { body, .. } = self.one.answer(alloc, &call)?;
        match body {
            Body::Ok(tree) => self.shown = tree,
            Body::No(_) => self.refused = self.refused.saturating_add(1),
        }
        Ok(())
    }

    /// Asks for this many steps.
    #[tactic(auto, using(crate::proofs::Asking::asking_steps))]
    fn ask_steps(&mut self, alloc: Global, count: u64) -> Result<(), AllocError>
        ensures { OnOk result (self.new ≡ spec.asked_all self.old (calls.steps count)) }
    {
        for _done in 0..count {
            self.ask(alloc, step(alloc)?)?;
        }
        Ok(())
    }

    /// Asks all calls of the demo of this size, in their order.
    #[tactic(auto, using(crate::proofs::Asking::asking_steps))]
    fn ask_all(&mut self, alloc: Global, size: u64) -> Result<(), AllocError>
        ensures { OnOk result (self.new ≡ spec.asked_all self.old (calls.calls size)) }
    {
        self.ask(alloc, load(alloc, size)?)?;
        self.ask_steps(alloc, STEPS)?;
        self.ask(alloc, add_cap(alloc)?)?;
        self.ask(alloc, step(alloc)?)?;
        self.ask(alloc, roll_back(alloc)?)?;
        self.ask(alloc, state(alloc)?)?;
        Ok(())
    }

    /// The demo of this size.
    #[tactic(auto, unfolding(crate::specs::Runs::demo_run))]
    pub(crate) fn of(alloc: Global, size: u64) -> Result<Run, AllocError>
        ensures { IfOk result (λ run. run ≡ spec.demo_run size) }
    {
        let mut run = Run::new(alloc)?;
        run.ask_all(alloc, size)?;
        Ok(run)
    }
}
