//! What a text declares, after the passes over its names, domains and functions.
ghost use Rattle.std.specs.Prelude.{◌≡◌, ◌++◌, ◌∷◌, [], ◌≤◌, IfOk, OnOk};
ghost use Rattle.std.specs.List.{filter_map};
ghost use Rattle.asm_program.specs.Items.{model_items, term_items, starts_of};
ghost use Rattle.asm_program.specs.Signatures.{names_of};
ghost use Rattle.asm_program.specs.NamesPass.{names_refused};
ghost use Rattle.asm_program.specs.DomainsPass.{domains_refused};
ghost use Rattle.asm_program.specs.FunctionsPass.{definitions_refused, starts_refused, functions_refused};
ghost use Rattle.asm_program.specs.TypedModels as models;
ghost use Rattle.asm_program.specs.TypedModels.{scope_of};
ghost use Rattle.asm_names.specs.Definitions.{AreDefined};
ghost use Rattle.asm_names.specs.Numbers.{domains_after};
ghost use Rattle.asm_program.specs.Checks.{Checks};

use crate::constants::constants;
use crate::domain_infos::infos;
use crate::domain_refusals::domains_checked;
use crate::function_refusals::{definitions_checked, headers, starts_checked};
use crate::headers::defined_names;
use crate::listing::names_of;
use crate::name_refusals::names_checked;
use asm_base::List;
use asm_items::{Items, NameSet, model_items, term_items};
use asm_program::TypeRefusal;
use asm_scope::{Header, Names, Scope, param_domains};
use asm_syntax::{DeclTree, DefTree, InitTree, ModelTree, TermTree};
use asm_value::{Domain, Domains};
use std::alloc::{AllocError, Global};

/// The domains of the parameters of each macro rule.
#[tactic(auto, using(crate::proofs::Lists::filter_steps))]
fn macro_params(
    alloc: Global,
    names: &Names,
    defs: &[DefTree],
) -> Result<List<List<Domain>>, AllocError>
    ensures { IfOk result (λ ms. ms ≡
        filter_map (models.macro_params [] names.now) defs.now) }
{
    let mut macros = List::new(alloc);
    for def in defs {
        match add_params(alloc, names, &mut macros, def) {
            Ok(()) => {}
            Err(fault) => return Err(fault),
        }
    }
    Ok(macros)
}

/// The parameters of one more macro rule, if a definition is of one.
fn add_params(
    alloc: Global,
    names: &Names,
    macros: &mut List<List<Domain>>,
    def: &DefTree,
) -> Result<(), AllocError>
    ensures { OnOk result (macros.new ≡
        macros.old ++ filter_map (models.macro_params [] names.now) (def.now ∷ [])) }
{
    match def {
        DefTree::Rule(_, params, _, _) => macros.push(param_domains(alloc, names, params)?),
        DefTree::Interval(_, _, _, _)
        | DefTree::Integers(_, _, _, _)
        | DefTree::Function(_, _, _, _)
        | DefTree::Invariant(_, _, _, _, _) => Ok(()),
    }
}

/// The declared domains of a text.
#[tactic(auto, using(crate::proofs::ScopeSteps::domain_steps))]
fn declared_domains(
    alloc: Global,
    tree: &ModelTree,
    names: &Names,
    defined: &NameSet,
) -> Result<Domains, AllocError>
    requires defined { AreDefined defined.now tree.now.defs }
    requires few { domains_after 0 tree.now.decls ≤ 256 }
    ensures { IfOk result (λ ds. ds ≡
        models.infos_from tree.now.defs names.now tree.now.decls 0 tree.now.decls) }
{
    let constants = constants(alloc, names, defined, tree.decls.as_slice())?;
    infos(
        alloc,
        constants.as_slice(),
        tree.defs.as_slice(),
        tree.decls.as_slice(),
    )
}

/// The names of a text, after the first two passes over it.
#[tactic(auto, using(crate::proofs::ScopeSteps::names_steps))]
fn declared_names(alloc: Global, tree: &ModelTree) -> Result<Names, TypeRefusal>
    ensures { Checks result
        (names_refused (model_items tree.now)
        ++ domains_refused tree.now.decls (names_of tree.now) (model_items tree.now))
        (λ names. names ≡ names_of tree.now) }
{
    let items = model_items(alloc, tree)?;
    names_checked(alloc, &items)?;
    let names = Names::of(alloc, names_of(alloc, tree)?)?;
    domains_checked(alloc, tree.decls.as_slice(), &names, &items)?;
    Ok(names)
}

fn definitions_fit(
    alloc: Global,
    names: &Names,
    functions: &List<Header>,
    defs: &[DefTree],
) -> Result<(), TypeRefusal>
    ensures { Checks result (definitions_refused [] names.now functions.now [] defs.now)
        (λ _. Unit {0}) }
{
    definitions_checked(alloc, names, functions.as_slice(), defs)
}

fn starts_fit(
    alloc: Global,
    names: &Names,
    functions: &List<Header>,
    init: &Option<InitTree>,
) -> Result<(), TypeRefusal>
    ensures { Checks result (starts_refused [] names.now functions.now [] (starts_of init.now))
        (λ _. Unit {0}) }
{
    starts_checked(alloc, names, functions.as_slice(), init)
}

/// The functions of declarations, after the third pass.
fn functions_checked(
    alloc: Global,
    names: &Names,
    defined: &NameSet,
    decls: &[DeclTree],
    defs: &[DefTree],
    init: &Option<InitTree>,
) -> Result<List<Header>, TypeRefusal>
    requires { AreDefined defined.now defs.now }
    ensures { Checks result
        (functions_refused defs.now names.now (models.headers defs.now names.now decls.now)
        decls.now (starts_of init.now))
        (λ hs. hs ≡ models.headers defs.now names.now decls.now) }
{
    let functions = headers(alloc, names, defined, decls)?;
    definitions_fit(alloc, names, &functions, defs)?;
    starts_fit(alloc, names, &functions, init)?;
    Ok(functions)
}

/// The functions of a text, after the third pass over it.
fn declared_functions(
    alloc: Global,
    tree: &ModelTree,
    names: &Names,
    defined: &NameSet,
) -> Result<List<Header>, TypeRefusal>
    requires { AreDefined defined.now tree.now.defs }
    ensures { Checks result
        (functions_refused tree.now.defs names.now
        (models.headers tree.now.defs names.now tree.now.decls) tree.now.decls
        (starts_of tree.now.init))
        (λ hs. hs ≡ models.headers tree.now.defs names.now tree.now.decls) }
{
    let decls = tree.decls.as_slice();
    let defs = tree.defs.as_slice();
    functions_checked(alloc, names, defined, decls, defs, &tree.init)
}

/// The functions of a text that have definitions.
fn text_defined(alloc: Global, tree: &ModelTree) -> Result<NameSet, AllocError>
    ensures { IfOk result (λ names. AreDefined names tree.now.defs) }
{
    defined_names(alloc, tree.defs.as_slice())
}

/// The domains of the parameters of each macro rule of a text.
fn text_macros(
    alloc: Global,
    names: &Names,
    tree: &ModelTree,
) -> Result<List<List<Domain>>, AllocError>
    ensures { IfOk result (λ ms. ms ≡
        filter_map (models.macro_params [] names.now) tree.now.defs) }
{
    macro_params(alloc, names, tree.defs.as_slice())
}

/// What a text declares; or the first refusal of the first three passes over it, of names, domains
/// and functions, each in text order. Time and memory go with the size of the tree.
#[tactic(auto, using(crate::proofs::ScopeSteps::scope_steps))]
pub fn declared(alloc: Global, tree: &ModelTree) -> Result<Scope, TypeRefusal>
    ensures { Checks result
        (names_refused (model_items tree.now)
        ++ domains_refused tree.now.decls (names_of tree.now) (model_items tree.now)
        ++ functions_refused tree.now.defs (names_of tree.now) (scope_of tree.now).functions
        tree.now.decls (starts_of tree.now.init))
        (λ scope. scope ≡ scope_of tree.now) }
{
    let names = declared_names(alloc, tree)?;
    let defined = text_defined(alloc, tree)?;
    let functions = declared_functions(alloc, tree, &names, &defined)?;
    let domains = declared_domains(alloc, tree, &names, &defined)?;
    let macros = text_macros(alloc, &names, tree)?;
    let scope = Scope::new(names, domains, functions, macros);
    Ok(scope)
}

/// The items of a term alone.
#[tactic(auto, using(crate::proofs::ScopeSteps::items_steps))]
fn items_of<'a>(alloc: Global, tree: &'a TermTree) -> Result<Items<'a>, AllocError>
    ensures { IfOk result (λ items. items ≡ term_items tree.now) }
{
    let mut items = Items::new(alloc);
    term_items(&mut items, tree)?;
    Ok(items)
}

/// The first refusal of a term alone in the passes over names and domains.
#[tactic(auto, using(crate::proofs::ScopeSteps::term_steps))]
pub fn term_declared(alloc: Global, scope: &Scope, tree: &TermTree) -> Result<(), TypeRefusal>
    ensures { Checks result
        (names_refused (term_items tree.now)
        ++ domains_refused [] scope.now.names (term_items tree.now))
        (λ _. Unit {0}) }
{
    let items = items_of(alloc, tree)?;
    names_checked(alloc, &items)?;
    domains_checked(alloc, &[], scope.names(), &items)?;
    Ok(())
}
