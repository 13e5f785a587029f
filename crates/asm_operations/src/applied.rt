//! What an operation gives, and the limits on it.
ghost use Rattle.std.specs.Prelude.{◌≡◌};
ghost use Rattle.asm_operations.specs.Results as spec;
ghost use Rattle.asm_operations.specs.Limits as limit;

use asm_value::Value;

/// What an operation gives.
#[derive(Debug, Drop)]
pub enum Applied {
    /// A value, which may be undef.
    Value(Value),
    /// The integer is outside the range from -2^127 to 2^127 - 1.
    Overflow,
    /// The value has more than 1,024 bytes or 256 items, or a weight above 4,096.
    TooLarge,
}

pub(crate) fn undefined() -> Applied
    ensures { result ≡ spec.undefined }
{
    Applied::Value(Value::Undef)
}

pub(crate) fn truth(truth: bool) -> Applied
    ensures { result ≡ spec.truth truth }
{
    Applied::Value(Value::Truth(truth))
}

pub(crate) fn int(number: i128) -> Applied
    ensures { result ≡ spec.int number }
{
    Applied::Value(Value::Int(number))
}

pub(crate) fn count(number: usize) -> Applied
    ensures { result ≡ spec.count number }
{
    int(number as i128)
}

/// At most 1,024 bytes in a string, 256 items in a sequence or a set.
fn is_short(value: &Value) -> bool
    ensures { result ≡ limit.is_short value.now }
{
    match value {
        Value::Chars(text) => text.as_str().len() <= 1024,
        Value::Seq(items) => items.len() <= 256,
        Value::Set(items) => items.len() <= 256,
        Value::Undef | Value::Truth(_) | Value::Int(_) | Value::Member { .. } | Value::Tuple(_) =>
            true,
    }
}

fn keeps_limits(value: &Value) -> bool
    ensures { result ≡ limit.keeps_limits value.now }
{
    is_short(value) && value.weight() <= 4096
}

/// The value if it keeps its limits, else TooLarge.
pub(crate) fn limited(value: Value) -> Applied
    ensures { result ≡ limit.limited value }
{
    if keeps_limits(&value) {
        Applied::Value(value)
    } else {
        Applied::TooLarge
    }
}

/// The same of what an operation gives.
pub(crate) fn within_limits(applied: Applied) -> Applied
    ensures { result ≡ limit.within_limits applied }
{
    match applied {
        Applied::Value(value) => limited(value),
        Applied::Overflow => Applied::Overflow,
        Applied::TooLarge => Applied::TooLarge,
    }
}
