//! The constants of abstract domains.
ghost use Rattle.std.specs.Prelude.{◌≡◌, ◌++◌, ◌∷◌, [], None, IfOk, OnOk};
ghost use Rattle.std.specs.Option.{option_map_or};
ghost use Rattle.asm_program.specs.TypedModels.{declared_name};
ghost use Rattle.asm_names.specs.Definitions.{header_among};
ghost use Rattle.asm_names.specs.Passes.{constant_domain, constant_if, constants_among};
ghost use Rattle.asm_names.specs.Passes.{constants_in};

use crate::headers::declared_header;
use asm_base::{List, Text};
use asm_items::{NameSet, text_of};
use asm_program::FunctionKind;
use asm_scope::{Header, Names};
use asm_syntax::DeclTree;
use asm_value::Domain;
use std::alloc::{AllocError, Global};

/// The abstract domain of which a function is a constant.
fn constant_domain(header: &Header) -> Option<u16>
    ensures { result ≡ constant_domain header.now }
{
    match header.kind() {
        FunctionKind::Constant => match header.result() {
            Domain::Abstract(number) => Some(*number),
            Domain::Truth
            | Domain::Int
            | Domain::Nat
            | Domain::Chars
            | Domain::Enum(_)
            | Domain::Subset(_)
            | Domain::Prod(_)
            | Domain::Seq(_)
            | Domain::Power(_) => None,
        },
        FunctionKind::Static
        | FunctionKind::Derived
        | FunctionKind::Controlled
        | FunctionKind::Monitored
        | FunctionKind::Shared
        | FunctionKind::Out => None,
    }
}

/// The name that a declaration declares.
pub(crate) fn declared_name(decl: &DeclTree) -> &str
    ensures { result.now ≡ declared_name decl.now }
{
    match decl {
        DeclTree::Enum(name, _, _, _)
        | DeclTree::Abstract(name, _)
        | DeclTree::Subset(name, _, _)
        | DeclTree::Defined(_, name, _, _, _)
        | DeclTree::Dynamic(_, name, _, _, _) => text_of(name),
    }
}

/// The abstract domain of which a declared function is a constant.
fn constant_of(
    alloc: Global,
    names: &Names,
    defined: &NameSet,
    decl: &DeclTree,
) -> Result<Option<u16>, AllocError>
    ensures { IfOk result (λ d. d ≡
        option_map_or constant_domain (header_among defined.now names.now decl.now) None) }
{
    match declared_header(alloc, names, defined, decl)? {
        Some(header) => Ok(constant_domain(&header)),
        None => Ok(None),
    }
}

/// Each constant and the number of its domain, in text order.
#[tactic(auto, using(crate::proofs::Lists::filter_steps))]
pub(crate) fn constants(
    alloc: Global,
    names: &Names,
    defined: &NameSet,
    decls: &[DeclTree],
) -> Result<List<(Text, u16)>, AllocError>
    ensures { IfOk result (λ cs. cs ≡ constants_among defined.now names.now decls.now) }
{
    let mut constants = List::new(alloc);
    for decl in decls {
        match add_constant(alloc, names, defined, &mut constants, decl) {
            Ok(()) => {}
            Err(fault) => return Err(fault),
        }
    }
    Ok(constants)
}

/// One more constant, if a declaration declares one.
#[tactic(auto, unfolding(crate::specs::Passes::constant_among))]
fn add_constant(
    alloc: Global,
    names: &Names,
    defined: &NameSet,
    constants: &mut List<(Text, u16)>,
    decl: &DeclTree,
) -> Result<(), AllocError>
    ensures { OnOk result (constants.new ≡
        constants.old ++ constants_among defined.now names.now (decl.now ∷ [])) }
{
    match constant_of(alloc, names, defined, decl)? {
        Some(domain) => {
            let name = Text::from_str(alloc, declared_name(decl))?;
            constants.push((name, domain))
        }
        None => Ok(()),
    }
}

/// The constants of one domain.
#[tactic(auto, using(crate::proofs::Lists::constants_steps))]
pub(crate) fn constants_of(
    alloc: Global,
    constants: &[(Text, u16)],
    domain: u16,
) -> Result<List<Text>, AllocError>
    ensures { IfOk result (λ texts. texts ≡ constants_in constants.now domain) }
{
    let mut names = List::new(alloc);
    for constant in constants {
        match add_if(alloc, &mut names, constant, domain) {
            Ok(()) => {}
            Err(fault) => return Err(fault),
        }
    }
    Ok(names)
}

/// One more constant, if it is of the domain.
fn add_if(
    alloc: Global,
    names: &mut List<Text>,
    constant: &(Text, u16),
    domain: u16,
) -> Result<(), AllocError>
    ensures { OnOk result (names.new ≡ names.old ++ constant_if constant.now domain) }
{
    if constant.1 == domain {
        names.push(constant.0.copy(alloc)?)
    } else {
        Ok(())
    }
}
