//! The names that a program declares, in their order.
ghost use Rattle.std.specs.Prelude.{◌≡◌, ◌∷◌, [], IfOk, OnOk};
ghost use Rattle.asm_typed_alone.specs.Listed.{with_names, literals_named, info_named};
ghost use Rattle.asm_typed_alone.specs.Listed.{infos_named, functions_named};

use asm_program::{FunctionInfo, Named};
use asm_value::{DomainInfo, DomainKind, List, Text};
use std::alloc::{AllocError, Global};

/// Names in their order, of which the last may still come.
pub(crate) type Listing = List<(Text, Named)>;

/// A number of a name. Want of memory is told for one that no text has: it is past 65,535.
fn number(at: usize) -> Result<u16, AllocError>
    ensures { IfOk result (λ n. n ≡ at) }
{
    if at <= 65535 {
        Ok(at as u16)
    } else {
        Err(AllocError)
    }
}

fn add(alloc: Global, names: &mut Listing, name: &Text, named: Named) -> Result<(), AllocError>
    ensures { OnOk result (names.new ≡ with_names names.old ((name.now, named) ∷ [])) }
{
    names.push((Text::from_str(alloc, name.as_str())?, named))?;
    Ok(())
}

fn add_literals(
    alloc: Global,
    names: &mut Listing,
    domain: u16,
    literals: &[Text],
) -> Result<(), AllocError>
    ensures { OnOk result
        (names.new ≡ with_names names.old (literals_named domain 0 literals.now)) }
{
    for (at, name) in literals.iter().enumerate() {
        let index = number(at)?;
        add(alloc, names, name, Named::Literal { domain, index })?;
    }
    Ok(())
}

/// The names of a declared domain with this number.
#[tactic(auto, using(crate::proofs::ListingSteps::info_steps))]
fn add_info(
    alloc: Global,
    names: &mut Listing,
    domain: u16,
    name: &Text,
    kind: &DomainKind,
) -> Result<(), AllocError>
    ensures { OnOk result
        (names.new ≡ with_names names.old (info_named domain name.now kind.now)) }
{
    match kind {
        DomainKind::Enum(literals) => {
            add(alloc, names, name, Named::Enum(domain))?;
            add_literals(alloc, names, domain, literals.as_slice())
        }
        DomainKind::Abstract(_) => add(alloc, names, name, Named::Abstract(domain)),
        DomainKind::Subset(_) => add(alloc, names, name, Named::Subset(domain)),
    }
}

fn add_infos(alloc: Global, names: &mut Listing, domains: &[DomainInfo]) -> Result<(), AllocError>
    ensures { OnOk result (names.new ≡ with_names names.old (infos_named 0 domains.now)) }
{
    for (at, info) in domains.iter().enumerate() {
        let domain = number(at)?;
        add_info(alloc, names, domain, &info.name, &info.kind)?;
    }
    Ok(())
}

fn add_functions(
    alloc: Global,
    names: &mut Listing,
    functions: &[FunctionInfo],
) -> Result<(), AllocError>
    ensures { OnOk result (names.new ≡ with_names names.old (functions_named 0 functions.now)) }
{
    for (at, info) in functions.iter().enumerate() {
        let function = number(at)?;
        add(alloc, names, &info.name, Named::Function(function))?;
    }
    Ok(())
}

/// The names of domains, of literals and of functions.
#[tactic(auto, using(crate::proofs::ListingSteps::names_steps))]
pub(crate) fn names_of(
    alloc: Global,
    domains: &[DomainInfo],
    functions: &[FunctionInfo],
) -> Result<Listing, AllocError>
    ensures { IfOk result (λ names. names ≡
        with_names (infos_named 0 domains.now) (functions_named 0 functions.now)) }
{
    let mut names = List::new(alloc);
    add_infos(alloc, &mut names, domains)?;
    add_functions(alloc, &mut names, functions)?;
    Ok(names)
}
