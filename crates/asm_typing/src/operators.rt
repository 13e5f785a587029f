//! What an operator gives to arguments of some types.
ghost use Rattle.std.specs.Prelude.{◌≡◌, IfOk, map};
ghost use Rattle.asm_typing.specs.Types.{kind_of};
ghost use Rattle.asm_typing.specs.Operators as spec;

use crate::results::result_type;
use crate::types::Type;
use asm_base::List;
use asm_tables::{CaseTable, Kind, Operation, Row, operators};
use std::alloc::{AllocError, Global};

/// What an operator's name means for arguments of some types.
#[derive(Drop)]
pub struct Operator {
    /// What is computed. None where no row of the operators' table matches, and the operator is
    /// only admitted for the sake of an untyped argument: it has no value then.
    pub operation: Option<Operation>,
    /// The type of the result; untyped where nothing is computed.
    pub result: Type,
}

/// Whether the table of operators has the name. Takes no memory.
pub fn is_operator(name: &str) -> bool
    ensures { result ≡ spec.is_operator name.now }
{
    has_name(&operators().rows, name)
}

fn has_name(rows: &[Row], name: &str) -> bool
    ensures { result ≡ spec.has_name rows.now name.now }
{
    for row in rows {
        if row.name.text() == name {
            return true;
        }
    }
    false
}

/// The operator of this name for arguments of these types: by the row that matches the name and the
/// types' kinds. None where no row matches and the operator isn't admitted either, where types that
/// have to join don't, or where a tuple has no such part. `AllocError` is want of memory.
pub fn operator_type(
    alloc: Global,
    name: &str,
    types: &[Type],
) -> Result<Option<Operator>, AllocError>
    ensures { IfOk result (λ o. o ≡ spec.operator_type name.now types.now) }
{
    by_rows(alloc, &operators(), name, types)
}

/// The operator by the rows of a table.
fn by_rows<const N: usize>(
    alloc: Global,
    table: &CaseTable<N>,
    name: &str,
    types: &[Type],
) -> Result<Option<Operator>, AllocError>
    ensures { IfOk result (λ o. o ≡ spec.by_rows table.now.rows name.now types.now) }
{
    let kinds = kinds_of(alloc, types)?;
    match table.find(name, kinds.as_slice()) {
        Some(at) => applied_at(alloc, &table.rows, at, types),
        None => Ok(unmatched(table.admits(name, kinds.as_slice()))),
    }
}

fn kinds_of(alloc: Global, types: &[Type]) -> Result<List<Kind>, AllocError>
    ensures { IfOk result (λ kinds. kinds ≡ map kind_of types.now) }
{
    let mut kinds = List::new(alloc);
    for one in types {
        kinds.push(one.kind())?;
    }
    Ok(kinds)
}

/// The operator by the row with this number.
fn applied_at(
    alloc: Global,
    rows: &[Row],
    number: u8,
    types: &[Type],
) -> Result<Option<Operator>, AllocError>
    ensures { IfOk result (λ o. o ≡ spec.applied_at rows.now number types.now) }
{
    match rows.get(usize::from(number)) {
        Some(row) => applied(alloc, *row, types),
        None => Ok(None),
    }
}

fn applied(alloc: Global, row: Row, types: &[Type]) -> Result<Option<Operator>, AllocError>
    ensures { IfOk result (λ o. o ≡ spec.applied row types.now) }
{
    Ok(with_result(row.operation, result_type(alloc, row.result, types)?))
}

/// The operator, where its result has a type.
fn with_result(operation: Operation, result_type: Option<Type>) -> Option<Operator>
    ensures { result ≡ spec.with_result operation result_type }
{
    match result_type {
        Some(one) => Some(Operator {
            operation: Some(operation),
            result: one,
        }),
        None => None,
    }
}

/// An operator that no row matches, where it is admitted.
fn unmatched(admitted: bool) -> Option<Operator>
    ensures { result ≡ spec.unmatched admitted }
{
    if admitted {
        Some(Operator {
            operation: None,
            result: Type::Untyped,
        })
    } else {
        None
    }
}
