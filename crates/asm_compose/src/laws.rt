//! What holds of every run.
ghost use Rattle.std.specs.Prelude.{◌≡◌, []};
ghost use Rattle.std.specs.List.{Contains};
ghost use Rattle.asm_formula.specs.declared.formula.Formula.{Formula};
ghost use Rattle.asm_formula.specs.Formulas.{names};
ghost use Rattle.asm_compose.specs.Runs.{Name, Beginning, run};
ghost use Rattle.asm_compose.specs.Steps.{course, steps_of};
ghost use Rattle.asm_compose.specs.TextOrder.{AgreesAt, LeavesAre, StepsAre};

use crate::leaf::Leaf;

/// A run depends on the models of its formula alone: on what they held as it began, and on what
/// their steps come to.
pub fn a_run_depends_on_its_models_alone<L: Leaf>()
    ensures { (formula : Formula) → (begins other : Beginning L.Refusal L.Left)
        → ((name : Name) → Contains (names formula) name → AgreesAt begins other name)
        → run begins.held begins.step formula ≡ run other.held other.step formula }
{}

/// The steps of a run are of its formula's models in text order: one of each where it is done, else
/// one of each of the first. What it leaves is of each model, in text order.
pub fn each_model_steps_once_in_text_order<L: Leaf>()
    ensures leaves { (formula : Formula) → (begins : Beginning L.Refusal L.Left)
        → LeavesAre (names formula) (run begins.held begins.step formula) }
    ensures steps { (formula : Formula) → (begins : Beginning L.Refusal L.Left)
        → StepsAre (names formula) (course begins formula []).ends (steps_of begins formula) }
{}
