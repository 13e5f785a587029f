//! A program in a state, and what the state becomes by updates.
ghost use Rattle.std.specs.Prelude.{◌≡◌, OnOk, IfOk};
ghost use Rattle.asm_value.specs.State as state;
ghost use Rattle.asm_value.specs.Living.{live_of};
ghost use Rattle.asm_terms.specs.Overlays.{overlay};

use crate::live::{copy_of, live_after};
use crate::written::Written;
use asm_program::Program;
use asm_state::State;
use asm_updates::UpdateSet;
use asm_value::{Domain, List, Live, Location, Subject, Update, Value, members};
use std::alloc::{AllocError, Global};

/// A program in a state A, with a set of updates U fired over it: `A + U`, of which A itself is not
/// copied. Terms are evaluated in a view. `program_of` and `map_of` in `specs/Views.antt` are what
/// it shows.
#[derive(Drop)]
pub struct View<'a> {
    program: &'a Program,
    state: &'a State,
    written: Written,
    live: Live,
    ghost lives: { live ≡ live_of (overlay state.now written) program.now.domains },
}

impl<'a> View<'a> {
    ghost use Rattle.asm_terms.specs.Views.{program_of, map_of, range};

    /// The state without updates. `AllocError` is want of memory. The cost goes by the size of the
    /// state for each abstract domain.
    pub fn new(
        alloc: Global,
        program: &'a Program,
        state: &'a State,
    ) -> Result<View<'a>, AllocError>
        ensures program { IfOk result (λ view. program_of view ≡ program.now) }
        ensures map { IfOk result (λ view. map_of view ≡ state.now) }
    {
        let live = state.live(alloc, &program.domains)?;
        Ok(View {
            program,
            state,
            written: Written::new(alloc),
            live,
        })
    }

    /// The program.
    pub fn program(&self) -> &'a Program
        ensures { result.now ≡ program_of self.now }
    {
        self.program
    }

    /// The value at a location, undef where there is none. Takes no memory.
    pub fn get(&self, location: &Location) -> &Value
        ensures { result.now ≡ state.value_at (map_of self.now) location.now }
    {
        match self.written.get(location) {
            Some(value) => value,
            None => self.state.get(location),
        }
    }

    /// The members of a domain, ascending. `AllocError` is want of memory.
    pub fn members(&self, alloc: Global, domain: &Domain) -> Result<List<Value>, AllocError>
        ensures { IfOk result (λ list. list ≡ range self.now domain.now) }
    {
        members(alloc, &self.program.domains, domain, &self.live)
    }

    /// The members of abstract domains after an update.
    fn live_after(&self, alloc: Global, update: &Update) -> Result<Live, AllocError>
        ensures { IfOk result (λ live.
            live ≡ live_of (state.fire_one (map_of self.now) update.now)
            (program_of self.now).domains) }
    {
        live_after(alloc, &self.program.domains, &self.live, update)
    }

    /// Fires one update.
    fn write(&mut self, alloc: Global, update: &Update) -> Result<(), AllocError>
        ensures program { OnOk result (program_of self.new ≡ program_of self.old) }
        ensures map { OnOk result
            (map_of self.new ≡ state.fire_one (map_of self.old) update.now) }
    {
        let live = self.live_after(alloc, update)?;
        let location = update.location.copy(alloc)?;
        let value = update.value.copy(alloc)?;
        self.written.insert(location, value)?;
        self.live = live;
        Ok(())
    }

    /// Fires an update set: `A + U` in place of A. On `AllocError`, want of memory, some of its
    /// updates were fired, and the view is of no more use.
    pub fn fire(&mut self, alloc: Global, updates: &UpdateSet) -> Result<(), AllocError>
        ensures program { OnOk result (program_of self.new ≡ program_of self.old) }
        ensures map { OnOk result (map_of self.new ≡ state.fire (map_of self.old) updates.now) }
    {
        let list = updates.items(alloc)?;
        for update in list.as_slice() {
            self.write(alloc, update)?;
        }
        Ok(())
    }

    /// The same view, whose updates go on by themselves. `AllocError` is want of memory.
    pub fn copy(&self, alloc: Global) -> Result<View<'a>, AllocError>
        ensures program { IfOk result (λ view. program_of view ≡ program_of self.now) }
        ensures map { IfOk result (λ view. map_of view ≡ map_of self.now) }
    {
        Ok(View {
            program: self.program,
            state: self.state,
            written: self.written.copy(alloc)?,
            live: copy_of(alloc, &self.live)?,
        })
    }
}
