//! Quantifiers: what they look for, and when they stop.
ghost use Rattle.std.specs.Prelude.{◌≡◌};
ghost use Rattle.asm_terms.specs.Quantifiers as spec;

use crate::results::{is_true, truth};
use asm_program::Outcome;
use asm_value::Value;

/// Which quantifier it is.
#[derive(Clone, Copy)]
pub enum Quantifier {
    Forall,
    Exist,
    ExistUnique,
}

/// How far a quantifier has come: it goes on, and may have found a combination at which its body is
/// true; or it ends with an outcome.
#[derive(Drop)]
pub enum Progress {
    GoesOn(bool),
    Ends(Outcome),
}

/// What a quantifier does where its body has this value.
fn step_value(quantifier: Quantifier, found: bool, value: &Value) -> Progress
    ensures { result ≡ spec.step_value quantifier found value.now }
{
    match quantifier {
        Quantifier::Forall => {
            if is_true(value) {
                Progress::GoesOn(found)
            } else {
                Progress::Ends(truth(false))
            }
        }
        Quantifier::Exist => {
            if is_true(value) {
                Progress::Ends(truth(true))
            } else {
                Progress::GoesOn(found)
            }
        }
        Quantifier::ExistUnique => {
            if !is_true(value) {
                Progress::GoesOn(found)
            } else if found {
                Progress::Ends(truth(false))
            } else {
                Progress::GoesOn(true)
            }
        }
    }
}

/// What a quantifier does where its body gives this. A fault is its outcome.
pub fn step(quantifier: Quantifier, found: bool, outcome: Outcome) -> Progress
    ensures { result ≡ spec.step quantifier found outcome }
{
    match outcome {
        Outcome::Value(value) => step_value(quantifier, found, &value),
        Outcome::Fault(fault) => Progress::Ends(Outcome::Fault(fault)),
    }
}

/// What it gives once it has come so far, and there are no more combinations.
pub fn finished(quantifier: Quantifier, progress: Progress) -> Outcome
    ensures { result ≡ spec.finished quantifier progress }
{
    match progress {
        Progress::GoesOn(found) => match quantifier {
            Quantifier::Forall => truth(true),
            Quantifier::Exist => truth(false),
            Quantifier::ExistUnique => truth(found),
        },
        Progress::Ends(outcome) => outcome,
    }
}
