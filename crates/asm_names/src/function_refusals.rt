//! The third pass over a text: each static or derived function has its definition, and no definition
//! is of anything else.
ghost use Rattle.std.specs.Prelude.{◌≡◌, ◌∷◌, ◌++◌, [], Some, IfOk};
ghost use Rattle.std.specs.Option.{option_map};
ghost use Rattle.asm_syntax.specs.Marks.{text_of};
ghost use Rattle.asm_program.specs.Signatures as signatures;
ghost use Rattle.asm_program.specs.Items.{starts_of};
ghost use Rattle.asm_names.specs.Passes.{missing_with, missing_in, missing_from, headers_among};
ghost use Rattle.asm_names.specs.Passes.{once_refused, definition_refused_at, defined_after};
ghost use Rattle.asm_program.specs.Checks.{Checks};
ghost use Rattle.asm_program.specs.FunctionsPass as pass;

use crate::headers::{declared_header, is_defined, is_dynamic};
use crate::refusals::{duplicate, missing, unknown};
use asm_base::List;
use asm_items::{NameSet, text_of};
use asm_program::{Named, TypeRefusal};
use asm_scope::{Header, Names, param_domains, same_domains};
use asm_syntax::{DeclTree, DefTree, InitTree, ParamsTree, StartTree, Token};
use std::alloc::{AllocError, Global};

/// The functions of a text, of which each that needs its definition has it.
pub(crate) fn headers(
    alloc: Global,
    names: &Names,
    defined: &NameSet,
    decls: &[DeclTree],
) -> Result<List<Header>, TypeRefusal>
    ensures { Checks result (missing_from defined.now names.now decls.now)
        (λ hs. hs ≡ headers_among defined.now names.now decls.now) }
{
    let mut headers = List::new(alloc);
    for decl in decls {
        match add_declared(alloc, names, defined, decl, &mut headers) {
            Ok(()) => {}
            Err(refusal) => return Err(refusal),
        }
    }
    Ok(headers)
}

/// What a declaration declares, if it is a function.
#[tactic(auto, using(crate::proofs::HeaderSteps::declared_steps))]
fn add_declared(
    alloc: Global,
    names: &Names,
    defined: &NameSet,
    decl: &DeclTree,
    headers: &mut List<Header>,
) -> Result<(), TypeRefusal>
    ensures { Checks result (missing_in defined.now names.now decl.now)
        (λ _. headers.new ≡ headers.old ++ headers_among defined.now names.now (decl.now ∷ [])) }
{
    match declared_header(alloc, names, defined, decl)? {
        Some(header) => add_header(alloc, defined, decl, header, headers),
        None => Ok(()),
    }
}

/// One more function, which has its definition if it needs one.
fn add_header(
    alloc: Global,
    defined: &NameSet,
    decl: &DeclTree,
    header: Header,
    headers: &mut List<Header>,
) -> Result<(), TypeRefusal>
    ensures { Checks result (missing_with defined.now [] (Some header) decl.now)
        (λ _. headers.new ≡ headers.old ++ header ∷ []) }
{
    has_definition(alloc, defined, decl, &header)?;
    headers.push(header)?;
    Ok(())
}

/// A static or derived function has its definition.
fn has_definition(
    alloc: Global,
    defined: &NameSet,
    decl: &DeclTree,
    header: &Header,
) -> Result<(), TypeRefusal>
    ensures { Checks result (missing_with defined.now [] (Some header.now) decl.now)
        (λ _. Unit {0}) }
{
    match decl {
        DeclTree::Defined(_, name, _, _, span) => {
            if is_defined(header.kind()) && !defined.contains(text_of(name)) {
                Err(missing(alloc, name, *span))
            } else {
                Ok(())
            }
        }
        DeclTree::Enum(_, _, _, _)
        | DeclTree::Abstract(_, _)
        | DeclTree::Subset(_, _, _)
        | DeclTree::Dynamic(_, _, _, _, _) => Ok(()),
    }
}

/// The header of a function.
pub(crate) fn function_at(functions: &[Header], named: Option<Named>) -> Option<&Header>
    ensures { option_map (λ h. h.now) result ≡ pass.function_at functions.now named }
{
    match named {
        Some(Named::Function(number)) => functions.get(usize::from(number)),
        Some(Named::Enum(_))
        | Some(Named::Abstract(_))
        | Some(Named::Subset(_))
        | Some(Named::Literal { .. })
        | Some(Named::Macro(_))
        | Some(Named::Main)
        | None => None,
    }
}

/// A function that is defined for the first time.
#[tactic(auto, using(crate::proofs::SetSteps::once_steps))]
fn defined_once<'a>(
    alloc: Global,
    names: &Names,
    functions: &'a [Header],
    done: &mut NameSet,
    name: &Token,
) -> Result<&'a Header, TypeRefusal>
    ensures { Checks result (once_refused [] names.now functions.now done.old name.now)
        (λ h. (pass.header_of [] names.now functions.now name.now ≡ Some h.now)
        × (done.new ≡ text_of name.now ∷ done.old)) }
{
    if !done.insert(text_of(name))? {
        return Err(duplicate(alloc, text_of(name), name.span));
    }
    match function_at(functions, names.find(text_of(name))) {
        Some(header) => Ok(header),
        None => Err(unknown(alloc, name)),
    }
}

/// A definition is of a static or derived function, over its arguments.
fn definition_checked(
    alloc: Global,
    names: &Names,
    functions: &[Header],
    done: &mut NameSet,
    name: &Token,
    params: &Option<ParamsTree>,
) -> Result<(), TypeRefusal>
    ensures { Checks result
        (pass.definition_refused [] names.now functions.now done.old
        (pass.takes_params [] names.now functions.now
        (signatures.param_domains names.now params.now)) name.now)
        (λ _. done.new ≡ text_of name.now ∷ done.old) }
{
    let header = defined_once(alloc, names, functions, done, name)?;
    if takes_params(alloc, names, params, header)? {
        Ok(())
    } else {
        Err(TypeRefusal::Mismatch(name.span))
    }
}

/// Whether a function is static or derived, with parameters in its argument domains.
fn takes_params(
    alloc: Global,
    names: &Names,
    params: &Option<ParamsTree>,
    header: &Header,
) -> Result<bool, AllocError>
    ensures { IfOk result (λ takes. takes ≡ pass.takes_params [] names.now []
        (signatures.param_domains names.now params.now) header.now) }
{
    let domains = param_domains(alloc, names, params)?;
    Ok(is_defined(header.kind()) && same_domains(domains.as_slice(), header.args()))
}

#[tactic(auto, using(crate::proofs::Passes::definitions_steps))]
pub(crate) fn definitions_checked(
    alloc: Global,
    names: &Names,
    functions: &[Header],
    defs: &[DefTree],
) -> Result<(), TypeRefusal>
    ensures { Checks result
        (pass.definitions_refused [] names.now functions.now [] defs.now)
        (λ _. Unit {0}) }
{
    let mut done = NameSet::new(alloc);
    for def in defs {
        match def_checked(alloc, names, functions, &mut done, def) {
            Ok(()) => {}
            Err(refusal) => return Err(refusal),
        }
    }
    Ok(())
}

fn def_checked(
    alloc: Global,
    names: &Names,
    functions: &[Header],
    done: &mut NameSet,
    def: &DefTree,
) -> Result<(), TypeRefusal>
    ensures { Checks result
        (definition_refused_at [] names.now functions.now done.old def.now)
        (λ _. done.new ≡ defined_after done.old def.now) }
{
    match def {
        DefTree::Function(name, params, _, _) => {
            definition_checked(alloc, names, functions, done, name, params)
        }
        DefTree::Interval(_, _, _, _)
        | DefTree::Integers(_, _, _, _)
        | DefTree::Rule(_, _, _, _)
        | DefTree::Invariant(_, _, _, _, _) => Ok(()),
    }
}

/// An initial term is of a dynamic function.
fn start_checked(
    alloc: Global,
    names: &Names,
    functions: &[Header],
    done: &mut NameSet,
    start: &StartTree,
) -> Result<(), TypeRefusal>
    ensures { Checks result
        (pass.definition_refused [] names.now functions.now done.old
        (λ h. pass.is_dynamic h.kind) start.now.function)
        (λ _. done.new ≡ text_of start.now.function ∷ done.old) }
{
    let header = defined_once(alloc, names, functions, done, &start.function)?;
    if is_dynamic(header.kind()) {
        Ok(())
    } else {
        Err(TypeRefusal::Mismatch(start.function.span))
    }
}

#[tactic(auto, using(crate::proofs::Passes::starts_steps))]
fn starts_among(
    alloc: Global,
    names: &Names,
    functions: &[Header],
    starts: &[StartTree],
) -> Result<(), TypeRefusal>
    ensures { Checks result (pass.starts_refused [] names.now functions.now [] starts.now)
        (λ _. Unit {0}) }
{
    let mut done = NameSet::new(alloc);
    for start in starts {
        match start_checked(alloc, names, functions, &mut done, start) {
            Ok(()) => {}
            Err(refusal) => return Err(refusal),
        }
    }
    Ok(())
}

pub(crate) fn starts_checked(
    alloc: Global,
    names: &Names,
    functions: &[Header],
    init: &Option<InitTree>,
) -> Result<(), TypeRefusal>
    ensures { Checks result
        (pass.starts_refused [] names.now functions.now [] (starts_of init.now))
        (λ _. Unit {0}) }
{
    match init {
        None => Ok(()),
        Some(init) => starts_among(alloc, names, functions, init.starts.as_slice()),
    }
}
