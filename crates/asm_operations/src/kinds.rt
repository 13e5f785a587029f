//! The kinds of arguments, and what is in them.
ghost use Rattle.std.specs.Prelude.{◌≡◌};
ghost use Rattle.asm_value.specs.declared.value.Value.TheVariants.{Undef};
ghost use Rattle.asm_value.specs.Value.{bytes_of};
ghost use Rattle.asm_operations.specs.Readers as spec;

use asm_value::Value;

pub(crate) fn is_tuple(value: &Value) -> bool
    ensures { result ≡ spec.is_tuple value.now }
{
    match value {
        Value::Tuple(_) => true,
        Value::Undef
        | Value::Truth(_)
        | Value::Int(_)
        | Value::Chars(_)
        | Value::Member { .. }
        | Value::Seq(_)
        | Value::Set(_) => false,
    }
}

pub(crate) fn is_seq(value: &Value) -> bool
    ensures { result ≡ spec.is_seq value.now }
{
    match value {
        Value::Seq(_) => true,
        Value::Undef
        | Value::Truth(_)
        | Value::Int(_)
        | Value::Chars(_)
        | Value::Member { .. }
        | Value::Tuple(_)
        | Value::Set(_) => false,
    }
}

pub(crate) fn is_set(value: &Value) -> bool
    ensures { result ≡ spec.is_set value.now }
{
    match value {
        Value::Set(_) => true,
        Value::Undef
        | Value::Truth(_)
        | Value::Int(_)
        | Value::Chars(_)
        | Value::Member { .. }
        | Value::Tuple(_)
        | Value::Seq(_) => false,
    }
}

/// A string's text; of any other kind the empty one.
pub(crate) fn chars_of(value: &Value) -> &str
    ensures { result.now ≡ bytes_of value.now }
{
    match value {
        Value::Chars(text) => text.as_str(),
        Value::Undef
        | Value::Truth(_)
        | Value::Int(_)
        | Value::Member { .. }
        | Value::Tuple(_)
        | Value::Seq(_)
        | Value::Set(_) => "",
    }
}

/// The item at a place from 0, or else what is lent as undef.
pub(crate) fn item<'a>(items: &'a [Value], at: usize, undef: &'a Value) -> &'a Value
    requires { undef.now ≡ Undef }
    ensures { result.now ≡ spec.item items.now at }
{
    match items.get(at) {
        Some(value) => value,
        None => undef,
    }
}

pub(crate) fn any_undef(values: &[Value]) -> bool
    ensures { result ≡ spec.any_undef values.now }
{
    values.iter().any(|value| value.is_undef())
}
