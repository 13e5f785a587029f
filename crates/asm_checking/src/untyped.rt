//! What is reported of a text whose tree is no program.
ghost use Rattle.std.specs.Prelude.{◌≡◌, ◌≢◌, ◌≤◌, length, IfOk};
ghost use Rattle.asm_syntax.specs.Texts.{most_bytes};
ghost use Rattle.asm_meaning.specs.Texts as spec;

use crate::bad_texts::reported_in;
use asm_program::{BadText, Limited, TypeRefusal};
use std::alloc::{AllocError, Global};

fn limited_text(limited: Limited) -> &'static str
    ensures { result.now ≡ spec.limited_text limited }
{
    match limited {
        Limited::Domains => "domains",
        Limited::Functions => "functions",
        Limited::Macros => "macros",
        Limited::Invariants => "invariants",
        Limited::Parts => "parts",
        Limited::Members => "members",
        Limited::Chars => "string",
        Limited::Product => "product",
        Limited::Powerset => "powerset",
        Limited::Depth => "depth",
    }
}

/// The first refusal of a tree, as it is reported.
pub(crate) fn untyped(alloc: Global, text: &str, why: &TypeRefusal) -> Result<BadText, AllocError>
    requires { length text.now ≤ most_bytes }
    ensures some { IfOk result (λ bad. why.now ≢ TypeRefusal.NoMemory) }
    ensures told { IfOk result (λ bad. bad ≡ spec.reported_type text.now why.now) }
{
    match why {
        TypeRefusal::Duplicate(name, span) => {
            reported_in(alloc, text, span.start, "Duplicate", name.as_str())
        }
        TypeRefusal::Unknown(name, span) => {
            reported_in(alloc, text, span.start, "Unknown", name.as_str())
        }
        TypeRefusal::Mismatch(span) => reported_in(alloc, text, span.start, "Mismatch", ""),
        TypeRefusal::Recursive(name, span) => {
            reported_in(alloc, text, span.start, "Recursive", name.as_str())
        }
        TypeRefusal::NotEnumerable(span) => {
            reported_in(alloc, text, span.start, "NotEnumerable", "")
        }
        TypeRefusal::Missing(name, span) => {
            reported_in(alloc, text, span.start, "Missing", name.as_str())
        }
        TypeRefusal::Limit(limited, had, span) => {
            let limited = limited_text(*limited);
            let more = format!(in alloc; "{limited} {had}")?;
            reported_in(alloc, text, span.start, "Limit", more.as_str())
        }
        TypeRefusal::TooMuchWork(work, span) => {
            let more = format!(in alloc; "{work}")?;
            reported_in(alloc, text, span.start, "TooMuchWork", more.as_str())
        }
        TypeRefusal::NoMemory => Err(AllocError),
    }
}
