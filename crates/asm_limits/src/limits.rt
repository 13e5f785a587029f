//! The depth and the work of what a text defines: the sixth pass over it.
ghost use Rattle.std.specs.Prelude.{◌≡◌, List, ℕ, IfOk, []};
ghost use Rattle.asm_program.specs.Checks.{Checks};
ghost use Rattle.asm_program.specs.Calls.{call_graph, definitions as definitions_of};
ghost use Rattle.asm_program.specs.TypedModels.{scope_of};
ghost use Rattle.asm_program.specs.Typed.{numbered, counts_refused};
ghost use Rattle.asm_calls.specs.Orders.{IsOrder};
ghost use Rattle.asm_typed_calls.specs.CalledNames.{IsSound};
ghost use Rattle.asm_typed_models.specs.Defined.{AreDefinitions};
ghost use Rattle.asm_limits.specs.Counted.{AreCounted};
ghost use Rattle.asm_limits.specs.Rounds as rounds;
ghost use Rattle.asm_limits.specs.Walks as walks;

use crate::known::Known;
use crate::rounds::{functions_settled, macros_settled};
use crate::walks::{deep, definitions_work, starts_work, with_work, within};
use asm_counts::Counts;
use asm_program::TypeRefusal;
use asm_scope::Scope;
use asm_syntax::ModelTree;
use asm_typed_models::Definitions;
use std::alloc::{AllocError, Global};

/// The counts of functions and of macro rules by their numbers.
#[derive(Drop)]
pub struct Counted {
    pub functions: Vec<Counts>,
    pub macros: Vec<Counts>,
}

impl Counted {
    fn known<'a>(&'a self, scope: &'a Scope) -> Known<'a>
        ensures domains { result.domains.now ≡ scope.now.domains }
        ensures functions { result.functions.now ≡ self.now.functions.items }
        ensures macros { result.macros.now ≡ self.now.macros.items }
    {
        Known {
            domains: scope.domains(),
            functions: self.functions.as_slice(),
            macros: self.macros.as_slice(),
        }
    }
}

/// The counts of each function and macro rule of a text: calls are followed until nothing changes.
/// `AllocError` is want of memory.
#[tactic(auto, using(crate::proofs::Tells::counted))]
pub fn counts_of(
    alloc: Global,
    scope: &Scope,
    tree: &ModelTree,
    definitions: &Definitions,
    order: &[usize],
) -> Result<Counted, AllocError>
    requires scoped { scope.now ≡ scope_of tree.now }
    requires sound { IsSound tree.now }
    requires defined { (text : List ℕ) × AreDefinitions text tree.now definitions.now }
    requires order { IsOrder (call_graph (definitions_of tree.now)) order.now }
    ensures { IfOk result (AreCounted tree.now) }
{
    settled(alloc, scope, definitions)
}

fn settled(alloc: Global, scope: &Scope, definitions: &Definitions) -> Result<Counted, AllocError>
    ensures { IfOk result (λ c.
        (c.functions.items ≡ rounds.iterated 512
        (rounds.function_round scope.now.domains definitions.now.bodies.items) [])
        × (c.macros.items ≡ rounds.iterated 512
        (rounds.macro_round scope.now.domains c.functions.items definitions.now.macros) [])) }
{
    let bodies = definitions.bodies.as_slice();
    let functions = functions_settled(alloc, scope.domains(), bodies, Vec::new(alloc))?;
    let infos = definitions.macros.as_slice();
    let macros = macros_settled(
        alloc,
        scope.domains(),
        functions.as_slice(),
        infos,
        Vec::new(alloc),
    )?;
    Ok(Counted { functions, macros })
}

/// The work of a text, where no definition is too deep and the work isn't too much: a depth is at
/// most 512, and the work at most 2^24 nodes. Takes no memory.
#[tactic(auto, using(crate::proofs::Texts::text_steps))]
pub fn text_work(
    scope: &Scope,
    tree: &ModelTree,
    definitions: &Definitions,
    counted: &Counted,
) -> Result<u64, TypeRefusal>
    requires scoped { scope.now ≡ scope_of tree.now }
    requires sound { IsSound tree.now }
    requires defined { (text : List ℕ) × AreDefinitions text tree.now definitions.now }
    requires counted { AreCounted tree.now counted.now }
    ensures { (text : List ℕ) → Checks result (counts_refused (numbered text tree.now) tree.now)
        (λ work. work ≡ (numbered text tree.now).work) }
{
    walked(scope, tree, definitions, &counted.known(scope))
}

/// The work of a text, by the counts that are known.
#[tactic(auto, using(crate::proofs::WalkSteps::walk_steps))]
fn walked(
    scope: &Scope,
    tree: &ModelTree,
    definitions: &Definitions,
    known: &Known,
) -> Result<u64, TypeRefusal>
    ensures { Checks result
        (walks.walk_refused known.now.domains.now known.now.functions.now known.now.macros.now
        scope.now definitions.now.bodies.items definitions.now.macros definitions.now.main
        definitions.now.inits definitions.now.invariants tree.now)
        (λ work. work
        ≡ walks.walk_work known.now.domains.now known.now.functions.now known.now.macros.now
        scope.now definitions.now.bodies.items definitions.now.macros definitions.now.main
        definitions.now.inits definitions.now.invariants tree.now) }
{
    let invariants = definitions_work(scope, known, definitions, tree.defs.as_slice())?;
    let main = known.rule(definitions.main.get());
    deep(main, tree.rule_name.span)?;
    let starts = starts_work(scope, known, definitions.inits.as_slice(), &tree.init)?;
    let work = with_work(with_work(main.work, invariants), starts);
    within(work, tree.main)
}
