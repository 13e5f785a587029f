//! What declarations say of functions.
ghost use Rattle.std.specs.Prelude.{◌≡◌, ◌&&◌, not, IfOk, OnOk};
ghost use Rattle.asm_program.specs.Signatures as spec;
ghost use Rattle.asm_program.specs.FunctionsPass.{is_defined, is_dynamic};
ghost use Rattle.asm_names.specs.Definitions.{AreDefined, defined_with, header_among};

use asm_base::{Boxed, List, Text};
use asm_items::{NameSet, text_of};
use asm_program::FunctionKind;
use asm_scope::{Header, Names, domain_of, factor_domains};
use asm_syntax::{DeclTree, DefTree, DomainTree, Token};
use asm_value::Domain;
use std::alloc::{AllocError, Global};

// ---- kinds

fn defined_kind(word: &Text) -> FunctionKind
    ensures { result ≡ spec.defined_kind word.now }
{
    if word.as_str() == "static" {
        FunctionKind::Static
    } else {
        FunctionKind::Derived
    }
}

fn dynamic_kind(word: &Text) -> FunctionKind
    ensures { result ≡ spec.dynamic_kind word.now }
{
    if word.as_str() == "controlled" {
        FunctionKind::Controlled
    } else if word.as_str() == "monitored" {
        FunctionKind::Monitored
    } else if word.as_str() == "shared" {
        FunctionKind::Shared
    } else {
        FunctionKind::Out
    }
}

/// Whether a function of this kind has a term. Takes no memory.
pub(crate) fn is_defined(kind: FunctionKind) -> bool
    ensures { result ≡ is_defined kind }
{
    match kind {
        FunctionKind::Static | FunctionKind::Derived => true,
        FunctionKind::Controlled
        | FunctionKind::Monitored
        | FunctionKind::Shared
        | FunctionKind::Out
        | FunctionKind::Constant => false,
    }
}

/// Whether a function of this kind may have an initial term. Takes no memory.
pub(crate) fn is_dynamic(kind: FunctionKind) -> bool
    ensures { result ≡ is_dynamic kind }
{
    match kind {
        FunctionKind::Controlled
        | FunctionKind::Monitored
        | FunctionKind::Shared
        | FunctionKind::Out => true,
        FunctionKind::Static | FunctionKind::Derived | FunctionKind::Constant => false,
    }
}

fn is_static(kind: FunctionKind) -> bool
    ensures { result ≡ spec.is_static kind }
{
    match kind {
        FunctionKind::Static => true,
        FunctionKind::Derived
        | FunctionKind::Controlled
        | FunctionKind::Monitored
        | FunctionKind::Shared
        | FunctionKind::Out
        | FunctionKind::Constant => false,
    }
}

fn is_abstract(domain: &Domain) -> bool
    ensures { result ≡ spec.is_abstract_domain domain.now }
{
    match domain {
        Domain::Abstract(_) => true,
        Domain::Truth
        | Domain::Int
        | Domain::Nat
        | Domain::Chars
        | Domain::Enum(_)
        | Domain::Subset(_)
        | Domain::Prod(_)
        | Domain::Seq(_)
        | Domain::Power(_) => false,
    }
}

// ---- headers

fn header_of(
    alloc: Global,
    names: &Names,
    kind: FunctionKind,
    first: &DomainTree,
    next: &Option<Boxed<DomainTree>>,
) -> Result<Header, AllocError>
    ensures { IfOk result (λ h. h ≡ spec.header names.now kind first.now next.now) }
{
    match next {
        None => {
            let codomain = domain_of(alloc, names, first)?;
            Ok(Header::new(kind, List::new(alloc), codomain.into_inner()))
        }
        Some(next) => {
            let args = factor_domains(alloc, names, first)?;
            let codomain = domain_of(alloc, names, next.get())?;
            Ok(Header::new(kind, args, codomain.into_inner()))
        }
    }
}

/// The header, of a constant where it is one.
fn with_constant(header: Header, is_defined: bool) -> Header
    ensures { result ≡ spec.with_constant
        (spec.is_static header.kind && spec.is_empty header.args
        && spec.is_abstract_domain header.result && not is_defined) header }
{
    let Header {
        kind,
        args,
        result: codomain,
    } = header;
    let is_constant = is_static(kind)
        && args.as_slice().is_empty()
        && is_abstract(&codomain)
        && !is_defined;
    if is_constant {
        Header::new(FunctionKind::Constant, args, codomain)
    } else {
        Header::new(kind, args, codomain)
    }
}

/// What a declaration says of a function, where these are the functions that have definitions; None
/// where it declares a domain.
#[tactic(auto, unfolding(crate::specs::Definitions::header_among))]
pub(crate) fn declared_header(
    alloc: Global,
    names: &Names,
    defined: &NameSet,
    decl: &DeclTree,
) -> Result<Option<Header>, AllocError>
    ensures { IfOk result (λ h. h ≡ header_among defined.now names.now decl.now) }
{
    match decl {
        DeclTree::Defined(word, name, first, next, _) => {
            let header = header_of(alloc, names, defined_kind(word), first.get(), next)?;
            Ok(Some(with_constant(header, defined.contains(text_of(name)))))
        }
        DeclTree::Dynamic(word, _, first, next, _) => {
            Ok(Some(header_of(alloc, names, dynamic_kind(word), first.get(), next)?))
        }
        DeclTree::Enum(_, _, _, _) | DeclTree::Abstract(_, _) | DeclTree::Subset(_, _, _) => {
            Ok(None)
        }
    }
}

/// The functions that have definitions.
pub(crate) fn defined_names(alloc: Global, defs: &[DefTree]) -> Result<NameSet, AllocError>
    ensures { IfOk result (λ names. AreDefined names defs.now) }
{
    let mut names = NameSet::new(alloc);
    for def in defs {
        match add_defined(&mut names, def) {
            Ok(()) => {}
            Err(fault) => return Err(fault),
        }
    }
    Ok(names)
}

/// The function of a definition, if it is one of a function.
fn add_defined(names: &mut NameSet, def: &DefTree) -> Result<(), AllocError>
    ensures { OnOk result (names.new ≡ defined_with names.old def.now) }
{
    match def {
        DefTree::Function(name, _, _, _) => {
            let _new = names.insert(text_of(name))?;
            Ok(())
        }
        DefTree::Interval(_, _, _, _)
        | DefTree::Integers(_, _, _, _)
        | DefTree::Rule(_, _, _, _)
        | DefTree::Invariant(_, _, _, _, _) => Ok(()),
    }
}
