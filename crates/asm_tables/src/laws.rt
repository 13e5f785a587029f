//! Laws of tables; each function does nothing.
ghost use Rattle.std.specs.Prelude.{◌≡◌, true, List};
ghost use Rattle.std.specs.List.{list_all};
ghost use Rattle.asm_tables.specs.declared.table.Row.{Row};
ghost use Rattle.asm_tables.specs.Table.{HaveOneMatch, AdmitTheirMatches, asks_for_values};

use crate::rows::OPERATORS;
use crate::table::CaseTable;

/// At most one row of a table matches a name with some kinds.
pub fn at_most_one_row_matches<const N: usize>(table: &CaseTable<N>)
    ensures { HaveOneMatch table.now.rows }
{}

/// At most one row of the operators' table matches a name with some kinds.
pub fn an_operator_has_one_row()
    ensures { HaveOneMatch OPERATORS }
{}

/// What a row matches is admitted too, in any list of rows.
pub fn a_match_is_admitted()
    ensures { (rows : List Row) → AdmitTheirMatches rows }
{}

/// No operator's row asks for `Untyped`, so what is untyped is matched by `Any` alone.
pub fn no_operator_asks_for_what_is_untyped()
    ensures { list_all asks_for_values OPERATORS ≡ true }
{}
