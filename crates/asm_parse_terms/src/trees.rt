//! Trees of operators and their operands.
ghost use Rattle.std.specs.Prelude.{◌≡◌, IfOk};
ghost use Rattle.asm_syntax.specs.Terms.{joined, prefix_of};

use asm_syntax::{Boxed, Span, TermTree, Token};
use std::alloc::{AllocError, Global};

/// The operator between its operands.
pub(crate) fn joined(
    alloc: Global,
    left: Boxed<TermTree>,
    operator: &Token,
    right: Boxed<TermTree>,
) -> Result<Boxed<TermTree>, AllocError>
    ensures { IfOk result (λ term. term ≡ joined left (operator.now, right)) }
{
    let span = Span {
        start: left.get().span().start,
        end: right.get().span().end,
    };
    let text = operator.text(alloc)?;
    Boxed::new(alloc, TermTree::Binary(left, text, right, span))
}

/// The operator before its operand.
pub(crate) fn prefix(
    alloc: Global,
    span: Span,
    operator: &Token,
    operand: Boxed<TermTree>,
) -> Result<Boxed<TermTree>, AllocError>
    ensures { IfOk result (λ term. term ≡ prefix_of span (operator.now, operand)) }
{
    let text = operator.text(alloc)?;
    Boxed::new(alloc, TermTree::Prefix(text, operand, span))
}
