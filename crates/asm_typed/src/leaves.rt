//! Terms without parts.
ghost use Rattle.std.specs.Prelude.{◌≡◌, [], ◌∷◌, IfOk};
ghost use Rattle.asm_syntax.specs.Marks.{text_of};
ghost use Rattle.asm_value.specs.declared.value.Value.TheVariants as values;
ghost use Rattle.asm_typing.specs.declared.types.Type.TheVariants as type;
ghost use Rattle.asm_program.specs.DomainsPass.{number_in};
ghost use Rattle.asm_program.specs.TypedTerms as spec;
ghost use Rattle.asm_typed.specs.Answers.{GivesTerm, IsTyped, settled, finished};

use crate::typed::Typed;
use crate::variables::Variables;
use asm_items::text_of;
use asm_program::{Limited, Term, TypeRefusal};
use asm_syntax::{Span, Token, TokenKind};
use asm_typing::{Type, copy_boxed};
use asm_value::{Boxed, Text, Value};
use std::alloc::{AllocError, Global};

/// The most bytes of a string.
const MOST_CHARS: usize = 1_024;

/// The number of a `Number`. Other tokens have none, and give 0.
fn number_of(token: &Token) -> i128
    ensures { result ≡ number_in token.now.kind }
{
    match &token.kind {
        TokenKind::Number(number) => *number,
        TokenKind::Id(_)
        | TokenKind::Var(_)
        | TokenKind::Chars(_)
        | TokenKind::Keyword(_)
        | TokenKind::Refused(_)
        | TokenKind::Symbol(_) => 0,
    }
}

/// Nothing of this name is declared; or want of memory for telling it.
#[tactic(auto, using(crate::proofs::Refusals::refusal_steps))]
pub fn unknown(alloc: Global, name: &Token) -> TypeRefusal
    ensures { settled result (spec.unknown name.now ∷ []) ≡ result }
{
    match name.text(alloc) {
        Ok(text) => TypeRefusal::Unknown(text, name.span),
        Err(_) => TypeRefusal::NoMemory,
    }
}

/// A literal.
fn constant(alloc: Global, value: Boxed<Term>, of: Type, span: Span) -> Result<Typed, AllocError>
    ensures { IfOk result (λ t. IsTyped t
        (finished of value span)) }
{
    Ok(Typed {
        of: Boxed::new(alloc, of)?,
        term: value,
        span,
    })
}

pub(crate) fn number(alloc: Global, token: &Token, span: Span) -> Result<Typed, AllocError>
    ensures { IfOk result (λ t. IsTyped t
        (spec.literal span (values.Int (number_in token.now.kind)) type.Int)) }
{
    let term = Boxed::new(alloc, Term::Constant(Value::Int(number_of(token))))?;
    constant(alloc, term, Type::Int, span)
}

pub(crate) fn truth(alloc: Global, value: bool, span: Span) -> Result<Typed, AllocError>
    ensures { IfOk result (λ t. IsTyped t
        (spec.literal span (values.Truth value) type.Truth)) }
{
    let term = Boxed::new(alloc, Term::Constant(Value::Truth(value)))?;
    constant(alloc, term, Type::Truth, span)
}

pub(crate) fn undef(alloc: Global, span: Span) -> Result<Typed, AllocError>
    ensures { IfOk result (λ t. IsTyped t
        (spec.literal span values.Undef type.Untyped)) }
{
    let term = Boxed::new(alloc, Term::Constant(Value::Undef))?;
    constant(alloc, term, Type::Untyped, span)
}

/// A string, of at most 1,024 bytes.
#[tactic(auto, using(crate::proofs::Refusals::refusal_steps))]
pub(crate) fn chars(alloc: Global, token: &Token, span: Span) -> Result<Typed, TypeRefusal>
    ensures { GivesTerm result (spec.chars_checked token.now span) }
{
    let text = text_of(token);
    if text.len() > MOST_CHARS {
        return Err(TypeRefusal::Limit(Limited::Chars, text.len() as u128, token.span));
    }
    let value = Value::Chars(Text::from_str(alloc, text)?);
    let term = Boxed::new(alloc, Term::Constant(value))?;
    Ok(constant(alloc, term, Type::Chars, span)?)
}

/// A variable in scope.
#[tactic(auto, using(crate::proofs::Refusals::refusal_steps))]
pub(crate) fn variable(
    alloc: Global,
    variables: &Variables,
    token: &Token,
    span: Span,
) -> Result<Typed, TypeRefusal>
    ensures { GivesTerm result (spec.variable_checked token.now span
        (spec.variable_at variables.now (text_of token.now))) }
{
    match variables.find(text_of(token)) {
        Some((at, of)) => {
            let of = copy_boxed(alloc, of)?;
            let term = Boxed::new(alloc, Term::Variable(at))?;
            Ok(Typed { of, term, span })
        }
        None => Err(unknown(alloc, token)),
    }
}
