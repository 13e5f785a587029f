//! That well-formed states lead to well-formed states. Each function does nothing.
ghost use Rattle.asm_program.specs.declared.program.Program.{Program};
ghost use Rattle.asm_soundness.specs.Keeping.{StartsWellFormed, InputsKeepWellFormed};
ghost use Rattle.asm_soundness.specs.Keeping.{StepsKeepWellFormed};
ghost use Rattle.asm_soundness.specs.Runs.{CheckedAreSorted, RunsStayWellFormed};

/// The initial state of a sorted program is well formed: it has the constants as its members, and
/// initial values in their functions' codomains, at arguments in their domains.
pub fn the_initial_state_is_well_formed()
    ensures { (p : Program) → StartsWellFormed p }
{}

/// Inputs leave a state well formed, whichever values of functions are taken away before they are
/// set. So no value from outside is read where no domain has it.
pub fn inputs_leave_a_state_well_formed()
    ensures { (p : Program) → InputsKeepWellFormed p }
{}

/// A step of a sorted program, whichever choices it takes, leads from a well-formed state to a
/// well-formed state. So each state of a run is one.
#[tactic(auto, using(crate::proofs::Steps::steps_keep))]
pub fn a_step_leaves_a_state_well_formed()
    ensures { (p : Program) → StepsKeepWellFormed p }
{}

/// The program of a text is sorted: its rules set functions that rules may set, they extend
/// abstract domains, and it names literals and constants alone.
pub fn a_checked_program_is_sorted()
    ensures { CheckedAreSorted }
{}

/// Each state that a run of a text's program reaches is well formed.
pub fn each_state_of_a_run_is_well_formed()
    ensures { RunsStayWellFormed }
{}
