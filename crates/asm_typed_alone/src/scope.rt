//! What a program declares, as far as terms see it.
ghost use Rattle.std.specs.Prelude.{◌≡◌, ◌∷◌, ◌++◌, [], map, IfOk, OnOk};
ghost use Rattle.asm_program.specs.TypedAlone as spec;
ghost use Rattle.asm_program.specs.TypedAlone.{scope_of_program, domain_names, function_names};

use crate::copies::{all_copied, copied, domains_copied};
use crate::listing::names_of;
use asm_program::{FunctionInfo, Program};
use asm_scope::{Header, Names, Scope};
use asm_value::{DomainInfo, List};
use std::alloc::{AllocError, Global};

fn header_of(alloc: Global, info: &FunctionInfo) -> Result<Header, AllocError>
    ensures { IfOk result (λ h. h ≡ spec.header_of info.now) }
{
    let args = all_copied(alloc, info.args.as_slice())?;
    let codomain = copied(alloc, &info.result)?;
    Ok(Header::new(info.kind, args, codomain))
}

/// One more header at the end.
fn add_header(
    alloc: Global,
    headers: &mut List<Header>,
    info: &FunctionInfo,
) -> Result<(), AllocError>
    ensures { OnOk result (headers.new ≡ headers.old ++ spec.header_of info.now ∷ []) }
{
    headers.push(header_of(alloc, info)?)
}

fn headers_of(alloc: Global, functions: &[FunctionInfo]) -> Result<List<Header>, AllocError>
    ensures { IfOk result (λ headers. headers ≡ map spec.header_of functions.now) }
{
    let mut headers = List::new(alloc);
    for info in functions {
        match add_header(alloc, &mut headers, info) {
            Ok(()) => {}
            Err(fault) => return Err(fault),
        }
    }
    Ok(headers)
}

#[tactic(auto, using(crate::proofs::ListingSteps::listed_steps))]
fn names_found(
    alloc: Global,
    domains: &[DomainInfo],
    functions: &[FunctionInfo],
) -> Result<Names, AllocError>
    ensures { IfOk result (λ names. names ≡
        domain_names 0 domains.now ++ function_names 0 functions.now) }
{
    Names::of(alloc, names_of(alloc, domains, functions)?)
}

/// What a program declares. `AllocError` is want of memory.
pub(crate) fn scope_of(alloc: Global, program: &Program) -> Result<Scope, AllocError>
    ensures { IfOk result (λ scope. scope ≡ scope_of_program program.now) }
{
    let names = names_found(
        alloc,
        program.domains.as_slice(),
        program.functions.as_slice(),
    )?;
    let domains = domains_copied(alloc, program.domains.as_slice())?;
    let functions = headers_of(alloc, program.functions.as_slice())?;
    Ok(Scope::new(names, domains, functions, List::new(alloc)))
}
