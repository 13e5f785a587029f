//! The declared domains.
ghost use Rattle.std.specs.Prelude.{◌≡◌, [], ◌∷◌, ◌++◌, ◌≤◌, map, IfOk, OnOk};
ghost use Rattle.asm_syntax.specs.Marks.{text_of};
ghost use Rattle.asm_names.specs.Numbers.{domains_after};
ghost use Rattle.asm_names.specs.Passes.{info_with, kind_among, infos_among};

use crate::constants::{constants_of, declared_name};
use crate::integers::ints_of;
use crate::listing::domain_after;
use asm_base::{List, Text};
use asm_items::text_of;
use asm_syntax::{DeclTree, DefTree, Token};
use asm_value::{DomainInfo, DomainKind, Domains};
use std::alloc::{AllocError, Global};

/// The texts of an enumeration's literals.
fn literal_texts(alloc: Global, first: &Token, others: &[Token]) -> Result<List<Text>, AllocError>
    ensures { IfOk result (λ texts. texts ≡ map text_of (first.now ∷ others.now)) }
{
    let mut texts = List::new(alloc);
    texts.push(first.text(alloc)?)?;
    for name in others {
        texts.push(name.text(alloc)?)?;
    }
    Ok(texts)
}

/// What a declared domain is, and None for a function.
#[tactic(auto, unfolding(crate::specs::Passes::kind_among))]
fn kind_of(
    alloc: Global,
    constants: &[(Text, u16)],
    defs: &[DefTree],
    domain: u16,
    decl: &DeclTree,
) -> Result<Option<DomainKind>, AllocError>
    ensures { IfOk result (λ k. k ≡ kind_among constants.now defs.now domain decl.now) }
{
    match decl {
        DeclTree::Enum(_, first, others, _) => {
            let texts = literal_texts(alloc, first, others.as_slice())?;
            Ok(Some(DomainKind::Enum(texts)))
        }
        DeclTree::Abstract(_, _) => {
            let names = constants_of(alloc, constants, domain)?;
            Ok(Some(DomainKind::Abstract(names)))
        }
        DeclTree::Subset(name, _, _) => match ints_of(alloc, text_of(name), defs)? {
            Some(ints) => Ok(Some(DomainKind::Subset(ints))),
            None => Err(AllocError),
        },
        DeclTree::Defined(_, _, _, _, _) | DeclTree::Dynamic(_, _, _, _, _) => Ok(None),
    }
}

/// One more domain, if there is its kind.
fn add_info(
    alloc: Global,
    domains: &mut Domains,
    decl: &DeclTree,
    kind: Option<DomainKind>,
) -> Result<(), AllocError>
    ensures { OnOk result (domains.new ≡ domains.old ++ info_with decl.now kind []) }
{
    match kind {
        Some(kind) => {
            let name = Text::from_str(alloc, declared_name(decl))?;
            domains.push(DomainInfo { name, kind })
        }
        None => Ok(()),
    }
}

/// The declared domains, in text order.
#[tactic(auto, using(crate::proofs::Lists::infos_steps))]
pub(crate) fn infos(
    alloc: Global,
    constants: &[(Text, u16)],
    defs: &[DefTree],
    decls: &[DeclTree],
) -> Result<Domains, AllocError>
    requires { domains_after 0 decls.now ≤ 256 }
    ensures { IfOk result (λ infos. infos ≡ infos_among constants.now defs.now 0 decls.now) }
{
    let mut domains = List::new(alloc);
    let mut number = 0u16;
    for decl in decls {
        let kind = match kind_of(alloc, constants, defs, number, decl) {
            Ok(kind) => kind,
            Err(fault) => return Err(fault),
        };
        match add_info(alloc, &mut domains, decl, kind) {
            Ok(()) => {}
            Err(fault) => return Err(fault),
        }
        number = domain_after(number, decl);
    }
    Ok(domains)
}
