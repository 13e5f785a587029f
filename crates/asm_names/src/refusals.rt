//! Refusals of names.
ghost use Rattle.std.specs.Prelude.{◌∷◌, []};
ghost use Rattle.asm_syntax.specs.Marks.{text_of};
ghost use Rattle.asm_program.specs.Checks.{IsFirst};
ghost use Rattle.asm_program.specs.declared.type_refusal.TypeRefusal.TheVariants as refusals;

use asm_base::Text;
use asm_items::text_of;
use asm_program::TypeRefusal;
use asm_syntax::{Span, Token};
use std::alloc::Global;

/// The name is there already.
pub(crate) fn duplicate(alloc: Global, name: &str, span: Span) -> TypeRefusal
    ensures { IsFirst result (refusals.Duplicate name.now span ∷ []) }
{
    match Text::from_str(alloc, name) {
        Ok(text) => TypeRefusal::Duplicate(text, span),
        Err(_) => TypeRefusal::NoMemory,
    }
}

/// Nothing of this name is declared.
pub(crate) fn unknown(alloc: Global, name: &Token) -> TypeRefusal
    ensures { IsFirst result (refusals.Unknown (text_of name.now) name.now.span ∷ []) }
{
    match Text::from_str(alloc, text_of(name)) {
        Ok(text) => TypeRefusal::Unknown(text, name.span),
        Err(_) => TypeRefusal::NoMemory,
    }
}

/// A declaration that lacks its definition.
pub(crate) fn missing(alloc: Global, name: &Token, span: Span) -> TypeRefusal
    ensures { IsFirst result (refusals.Missing (text_of name.now) span ∷ []) }
{
    match Text::from_str(alloc, text_of(name)) {
        Ok(text) => TypeRefusal::Missing(text, span),
        Err(_) => TypeRefusal::NoMemory,
    }
}
