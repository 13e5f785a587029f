//! The functions of a program: what their declarations say, their terms and their counts.
ghost use Rattle.std.specs.Prelude.{◌≡◌, ◌+◌, ◌<◌, ◌++◌, ◌∷◌, [], Option, IfOk, OnOk};
ghost use Rattle.std.specs.Prelude.{length, map, drop, get_or};
ghost use Rattle.std.specs.List.{filter_map};
ghost use Rattle.asm_program.specs.declared.trees.Term.{Term as TermOf};
ghost use Rattle.asm_program.specs.TypedModels.{scope_of};
ghost use Rattle.asm_program.specs.Typed as typed;
ghost use Rattle.asm_counts.specs.CountLevels as counting;
ghost use Rattle.asm_typed_calls.specs.CalledNames.{functions_in};
ghost use Rattle.asm_limits.specs.Counted.{AreCounted};
ghost use Rattle.asm_types.specs.Assembled.{function_name, info_of, infos_from, AreShallow};

use asm_counts::{Counts, NO_COUNTS};
use asm_items::text_of as name_of;
use asm_limits::Counted;
use asm_program::{FunctionInfo, Term};
use asm_scope::{Header, Scope};
use asm_syntax::{DeclTree, ModelTree};
use asm_typed_alone::{all_copied, copied};
use asm_value::{Boxed, List, Text};
use std::alloc::{AllocError, Global};

// ---- names

/// The name of one more function, if a declaration is of one.
fn add_name(alloc: Global, names: &mut List<Text>, decl: &DeclTree) -> Result<(), AllocError>
    ensures { OnOk result (names.new ≡ names.old ++ filter_map function_name (decl.now ∷ [])) }
{
    match decl {
        DeclTree::Defined(_, name, _, _, _) | DeclTree::Dynamic(_, name, _, _, _) => {
            names.push(Text::from_str(alloc, name_of(name))?)
        }
        DeclTree::Enum(_, _, _, _) | DeclTree::Abstract(_, _) | DeclTree::Subset(_, _, _) => {
            Ok(())
        }
    }
}

/// The names of the declared functions, in text order.
#[tactic(auto, using(asm_names::proofs::Lists::filter_steps))]
fn function_names(alloc: Global, decls: &[DeclTree]) -> Result<List<Text>, AllocError>
    ensures { IfOk result (λ names. names ≡ filter_map function_name decls.now) }
{
    let mut names = List::new(alloc);
    for decl in decls {
        match add_name(alloc, &mut names, decl) {
            Ok(()) => {}
            Err(fault) => return Err(fault),
        }
    }
    Ok(names)
}

// ---- one function

/// The counts of the function with this number.
#[tactic(auto, unfolding(asm_counts::specs::CountLevels::known, asm_counts::specs::CountLevels::nothing))]
fn counts_at(counts: &[Counts], at: usize) -> Counts
    ensures { result ≡ counting.known counts.now at }
{
    match counts.get(at) {
        Some(counts) => *counts,
        None => NO_COUNTS,
    }
}

/// The term of a function, which is taken.
#[tactic(auto, using(crate::proofs::Infos::taken_steps))]
fn taken(bodies: &mut Vec<Option<Boxed<Term>>>, at: usize) -> Option<Boxed<Term>>
    requires { at < length bodies.old.items }
    ensures body { (none : Option TermOf) → result ≡ get_or bodies.old.items at none }
    ensures rest { drop (at + 1) bodies.new.items ≡ drop (at + 1) bodies.old.items }
    ensures length { length bodies.new.items ≡ length bodies.old.items }
{
    bodies[at].take()
}

fn function_info(
    alloc: Global,
    name: &Text,
    header: &Header,
    body: Option<Boxed<Term>>,
    counts: Counts,
) -> Result<FunctionInfo, AllocError>
    ensures { IfOk result (λ info. info ≡ info_of name.now header.now body counts) }
{
    let name = name.copy(alloc)?;
    let args = all_copied(alloc, header.args())?;
    let result = copied(alloc, header.result())?;
    Ok(FunctionInfo {
        name,
        kind: header.kind(),
        args,
        result,
        body,
        depth: counts.depth,
        work: counts.work,
    })
}

/// One more function.
fn add_function(
    alloc: Global,
    infos: &mut List<FunctionInfo>,
    name: &Text,
    header: &Header,
    body: Option<Boxed<Term>>,
    counts: Counts,
) -> Result<(), AllocError>
    ensures { OnOk result (infos.new ≡ infos.old ++ info_of name.now header.now body counts ∷ []) }
{
    let info = function_info(alloc, name, header, body, counts)?;
    infos.push(info)
}

// ---- all functions

/// The functions of these names.
#[tactic(auto, using(crate::proofs::Infos::infos_steps))]
fn function_infos(
    alloc: Global,
    names: &[Text],
    headers: &[Header],
    mut bodies: Vec<Option<Boxed<Term>>>,
    counts: &[Counts],
) -> Result<List<FunctionInfo>, AllocError>
    requires headers { length names.now ≡ length headers.now }
    requires bodies { length names.now ≡ length bodies.items }
    ensures { IfOk result (λ infos. infos ≡
        infos_from counts.now 0 names.now headers.now bodies.items) }
{
    let mut infos = List::new(alloc);
    for (at, name) in names.iter().enumerate() {
        let body = taken(&mut bodies, at);
        match add_function(
            alloc,
            &mut infos,
            name,
            &headers[at],
            body,
            counts_at(counts, at),
        ) {
            Ok(()) => {}
            Err(fault) => return Err(fault),
        }
    }
    Ok(infos)
}

/// The functions of a text, with their terms and their counts.
#[tactic(auto, using(crate::proofs::Infos::text_steps))]
pub(crate) fn functions_of(
    alloc: Global,
    tree: &ModelTree,
    scope: &Scope,
    bodies: Vec<Option<Boxed<Term>>>,
    counted: &Counted,
) -> Result<List<FunctionInfo>, AllocError>
    requires scoped { scope.now ≡ scope_of tree.now }
    requires bodies { bodies.items ≡ map (λ info. info.body) (functions_in tree.now) }
    requires counted { AreCounted tree.now counted.now }
    requires shallow { AreShallow tree.now }
    ensures { IfOk result (λ infos. infos ≡ typed.functions_of (scope_of tree.now) tree.now) }
{
    let names = function_names(alloc, tree.decls.as_slice())?;
    function_infos(
        alloc,
        names.as_slice(),
        scope.functions(),
        bodies,
        counted.functions.as_slice(),
    )
}
