//! Functions of a program: their locations, domains and defining terms.
ghost use Rattle.std.specs.Prelude.{◌≡◌, map, IfOk, IfSome, IfNone, Some, None};
ghost use Rattle.asm_value.specs.Domain as domain;
ghost use Rattle.asm_program.specs.Forms as forms;
ghost use Rattle.asm_program.specs.Meaning as meaning;
ghost use Rattle.asm_program.specs.Initial.{in_codomain};
ghost use Rattle.asm_terms.specs.Views.{program_of, map_of};

use crate::view::View;
use asm_program::{Program, Term};
use asm_value::{Args, Domain, Location, Subject, Value, fits};
use std::alloc::{AllocError, Global};

/// The location of a function with copies of these arguments. `AllocError` is want of memory.
pub fn location_of(alloc: Global, function: u16, args: &[Value]) -> Result<Location, AllocError>
    ensures { IfOk result (λ location. location ≡ meaning.location_of function args.now) }
{
    let mut copied = Args::new(alloc);
    for value in args {
        copied.push(value.copy(alloc)?)?;
    }
    Ok(Location {
        subject: Subject::Function(function),
        args: copied,
    })
}

/// Whether there are as many values as domains, each value in the domain with its index. Each index
/// counts as a member of an abstract domain.
fn all_fit(program: &Program, domains: &[Domain], values: &[Value]) -> bool
    ensures { result ≡ domain.each_passes
        (map (domain.fits program.now.domains program.now.everyone) domains.now) values.now }
{
    match domains {
        [] => values.is_empty(),
        [first, others @ ..] => match values {
            [] => false,
            [value, rest @ ..] => {
                fits(value, &program.domains, first, &program.everyone)
                    && all_fit(program, others, rest)
            }
        },
    }
}

/// Whether the arguments are in the domains that the function is declared with, where each index
/// counts as a member of an abstract domain. Takes no memory.
pub fn function_takes(program: &Program, function: u16, args: &[Value]) -> bool
    ensures { result ≡ meaning.function_takes program.now function args.now }
{
    match program.functions.as_slice().get(usize::from(function)) {
        Some(info) => all_fit(program, info.args.as_slice(), args),
        None => false,
    }
}

/// Whether the value is in the codomain that the function is declared with, where each index counts
/// as a member of an abstract domain. Takes no memory.
pub fn is_in_codomain(program: &Program, function: u16, value: &Value) -> bool
    ensures { result ≡ in_codomain program.now function value.now }
{
    match program.functions.as_slice().get(usize::from(function)) {
        Some(info) => fits(value, &program.domains, &info.result, &program.everyone),
        None => false,
    }
}

/// The value of a dynamic function; undef where an argument isn't in its domain.
pub fn read(
    alloc: Global,
    view: &View<'_>,
    function: u16,
    args: &[Value],
) -> Result<Value, AllocError>
    ensures { IfOk result (λ value.
        value ≡ meaning.read (program_of view.now) (map_of view.now) function args.now) }
{
    if !function_takes(view.program(), function, args) {
        return Ok(Value::Undef);
    }
    let location = location_of(alloc, function, args)?;
    view.get(&location).copy(alloc)
}

/// The term that defines the function.
pub fn body_of(program: &Program, function: u16) -> Option<&Term>
    ensures some { IfSome result (λ body.
        forms.body_of program.now.functions function ≡ Some body.now) }
    ensures none { IfNone result (forms.body_of program.now.functions function ≡ None) }
{
    match program.functions.as_slice().get(usize::from(function)) {
        Some(info) => match &info.body {
            Some(body) => Some(body.get()),
            None => None,
        },
        None => None,
    }
}
