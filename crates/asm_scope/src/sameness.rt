//! Whether domains are the same as they are declared.
ghost use Rattle.std.specs.Prelude.{◌≡◌};
ghost use Rattle.asm_program.specs.FunctionsPass as spec;

use asm_value::Domain;

/// Natural isn't Integer here. Takes no memory.
#[cycle(same)]
#[tactic(auto, using(crate::proofs::SameSteps::same_steps))]
fn same_domain(left: &Domain, right: &Domain) -> bool
    ensures { result ≡ spec.same_domain left.now right.now }
{
    match left {
        Domain::Truth => matches!(right, Domain::Truth),
        Domain::Int => matches!(right, Domain::Int),
        Domain::Nat => matches!(right, Domain::Nat),
        Domain::Chars => matches!(right, Domain::Chars),
        Domain::Enum(number) => match right {
            Domain::Enum(other) => number == other,
            Domain::Truth
            | Domain::Int
            | Domain::Nat
            | Domain::Chars
            | Domain::Abstract(_)
            | Domain::Subset(_)
            | Domain::Prod(_)
            | Domain::Seq(_)
            | Domain::Power(_) => false,
        },
        Domain::Abstract(number) => match right {
            Domain::Abstract(other) => number == other,
            Domain::Truth
            | Domain::Int
            | Domain::Nat
            | Domain::Chars
            | Domain::Enum(_)
            | Domain::Subset(_)
            | Domain::Prod(_)
            | Domain::Seq(_)
            | Domain::Power(_) => false,
        },
        Domain::Subset(number) => match right {
            Domain::Subset(other) => number == other,
            Domain::Truth
            | Domain::Int
            | Domain::Nat
            | Domain::Chars
            | Domain::Enum(_)
            | Domain::Abstract(_)
            | Domain::Prod(_)
            | Domain::Seq(_)
            | Domain::Power(_) => false,
        },
        Domain::Prod(parts) => match right {
            Domain::Prod(other) => same_domains(parts.as_slice(), other.as_slice()),
            Domain::Truth
            | Domain::Int
            | Domain::Nat
            | Domain::Chars
            | Domain::Enum(_)
            | Domain::Abstract(_)
            | Domain::Subset(_)
            | Domain::Seq(_)
            | Domain::Power(_) => false,
        },
        Domain::Seq(item) => match right {
            Domain::Seq(other) => same_domain(item.get(), other.get()),
            Domain::Truth
            | Domain::Int
            | Domain::Nat
            | Domain::Chars
            | Domain::Enum(_)
            | Domain::Abstract(_)
            | Domain::Subset(_)
            | Domain::Prod(_)
            | Domain::Power(_) => false,
        },
        Domain::Power(item) => match right {
            Domain::Power(other) => same_domain(item.get(), other.get()),
            Domain::Truth
            | Domain::Int
            | Domain::Nat
            | Domain::Chars
            | Domain::Enum(_)
            | Domain::Abstract(_)
            | Domain::Subset(_)
            | Domain::Prod(_)
            | Domain::Seq(_) => false,
        },
    }
}

/// Whether there are as many domains, each the same as the other with its index. Takes no memory.
#[cycle(same)]
#[tactic(auto, using(crate::proofs::SameSteps::same_steps))]
pub fn same_domains(left: &[Domain], right: &[Domain]) -> bool
    ensures { result ≡ spec.same_domains left.now right.now }
{
    if right.len() != left.len() {
        return false;
    }
    for at in 0..right.len() {
        if !same_domain(&left[at], &right[at]) {
            return false;
        }
    }
    true
}
