//! Rows looked up by hand: numbers counted from the top of the language's table of operators.
use asm_tables::{CaseTable, Kind, Operation, ResultRule, at_most_one_row_matches, operators};
use std::test::Fail;

/// Names with the kind of one argument, and the number of the row.
const ONE: [(&str, Kind, u8); 20] = [
    ("-", Kind::Int, 5),
    ("abs", Kind::Int, 6),
    ("not", Kind::Truth, 17),
    ("length", Kind::Chars, 23),
    ("toString", Kind::Int, 24),
    ("toString", Kind::Truth, 25),
    ("length", Kind::Seq, 26),
    ("first", Kind::Seq, 27),
    ("last", Kind::Seq, 28),
    ("tail", Kind::Seq, 29),
    ("isEmpty", Kind::Seq, 34),
    ("isEmpty", Kind::Set, 35),
    ("asSet", Kind::Seq, 36),
    ("asSequence", Kind::Set, 37),
    ("size", Kind::Set, 38),
    ("first", Kind::Tuple, 45),
    ("second", Kind::Tuple, 46),
    ("third", Kind::Tuple, 47),
    ("isDef", Kind::Untyped, 50),
    ("isUndef", Kind::Member, 51),
];

/// Names with the kinds of two arguments, and the number of the row.
const TWO: [(&str, Kind, Kind, u8); 33] = [
    ("+", Kind::Int, Kind::Int, 0),
    ("-", Kind::Int, Kind::Int, 1),
    ("*", Kind::Int, Kind::Int, 2),
    ("div", Kind::Int, Kind::Int, 3),
    ("mod", Kind::Int, Kind::Int, 4),
    ("min", Kind::Int, Kind::Int, 7),
    ("max", Kind::Int, Kind::Int, 8),
    ("<", Kind::Int, Kind::Int, 9),
    ("<", Kind::Chars, Kind::Chars, 10),
    ("<=", Kind::Int, Kind::Int, 11),
    ("<=", Kind::Chars, Kind::Chars, 12),
    (">", Kind::Int, Kind::Int, 13),
    (">", Kind::Chars, Kind::Chars, 14),
    (">=", Kind::Int, Kind::Int, 15),
    (">=", Kind::Chars, Kind::Chars, 16),
    ("concat", Kind::Chars, Kind::Chars, 22),
    ("concat", Kind::Seq, Kind::Seq, 33),
    ("xor", Kind::Truth, Kind::Truth, 18),
    ("iff", Kind::Truth, Kind::Truth, 19),
    ("in", Kind::Tuple, Kind::Set, 20),
    ("notin", Kind::Untyped, Kind::Set, 21),
    ("at", Kind::Seq, Kind::Int, 30),
    ("append", Kind::Seq, Kind::Chars, 31),
    ("prepend", Kind::Chars, Kind::Seq, 32),
    ("union", Kind::Set, Kind::Set, 39),
    ("intersection", Kind::Set, Kind::Set, 40),
    ("difference", Kind::Set, Kind::Set, 41),
    ("including", Kind::Set, Kind::Member, 42),
    ("excluding", Kind::Set, Kind::Untyped, 43),
    ("subset", Kind::Set, Kind::Set, 44),
    ("=", Kind::Int, Kind::Untyped, 48),
    ("=", Kind::Untyped, Kind::Untyped, 48),
    ("!=", Kind::Truth, Kind::Int, 49),
];

/// Names and kinds that have no row.
const NONE: [(&str, Kind, Kind); 14] = [
    ("and", Kind::Truth, Kind::Truth),
    ("or", Kind::Truth, Kind::Truth),
    ("implies", Kind::Truth, Kind::Truth),
    ("", Kind::Int, Kind::Int),
    ("mo", Kind::Int, Kind::Int),
    ("mods", Kind::Int, Kind::Int),
    ("Mod", Kind::Int, Kind::Int),
    ("+", Kind::Int, Kind::Chars),
    ("+", Kind::Int, Kind::Untyped),
    ("+", Kind::Int, Kind::Any),
    ("<", Kind::Int, Kind::Chars),
    ("in", Kind::Set, Kind::Seq),
    ("at", Kind::Int, Kind::Seq),
    ("concat", Kind::Chars, Kind::Seq),
];

/// Names and kinds, and whether they are admitted.
const ADMITTED: [(&str, Kind, Kind, bool); 11] = [
    ("+", Kind::Int, Kind::Int, true),
    ("+", Kind::Untyped, Kind::Int, true),
    ("+", Kind::Int, Kind::Untyped, true),
    ("+", Kind::Untyped, Kind::Untyped, true),
    ("+", Kind::Untyped, Kind::Chars, false),
    ("<", Kind::Untyped, Kind::Chars, true),
    ("in", Kind::Truth, Kind::Untyped, true),
    ("at", Kind::Untyped, Kind::Int, true),
    ("at", Kind::Untyped, Kind::Seq, false),
    ("and", Kind::Untyped, Kind::Untyped, false),
    ("not", Kind::Untyped, Kind::Untyped, false),
];

/// Numbers of rows, with the operation and the rule of the result.
const RESULTS: [(usize, Operation, ResultRule); 26] = [
    (5, Operation::Negate, ResultRule::Int),
    (8, Operation::Max, ResultRule::Int),
    (16, Operation::AtLeastChars, ResultRule::Truth),
    (20, Operation::In, ResultRule::TruthOfItem),
    (21, Operation::NotIn, ResultRule::TruthOfItem),
    (22, Operation::ConcatChars, ResultRule::Chars),
    (23, Operation::CharsLength, ResultRule::Int),
    (25, Operation::TruthToChars, ResultRule::Chars),
    (28, Operation::LastItem, ResultRule::Item),
    (29, Operation::Tail, ResultRule::Argument),
    (30, Operation::At, ResultRule::Item),
    (31, Operation::Append, ResultRule::JoinLast),
    (32, Operation::Prepend, ResultRule::JoinFirst),
    (33, Operation::ConcatSeqs, ResultRule::Join),
    (35, Operation::IsEmptySet, ResultRule::Truth),
    (36, Operation::AsSet, ResultRule::SetOfItems),
    (37, Operation::AsSeq, ResultRule::SeqOfItems),
    (41, Operation::Difference, ResultRule::Join),
    (43, Operation::Excluding, ResultRule::JoinLast),
    (44, Operation::Subset, ResultRule::Truth),
    (45, Operation::FirstPart, ResultRule::FirstPart),
    (46, Operation::SecondPart, ResultRule::SecondPart),
    (47, Operation::ThirdPart, ResultRule::ThirdPart),
    (48, Operation::Equal, ResultRule::TruthOfJoin),
    (49, Operation::NotEqual, ResultRule::TruthOfJoin),
    (51, Operation::IsUndef, ResultRule::Truth),
];

fn one_is_found(table: &CaseTable<52>) -> bool {
    for (name, kind, number) in &ONE {
        if table.find(name, &[*kind]) != Some(*number) {
            return false;
        }
    }
    true
}

fn two_are_found(table: &CaseTable<52>) -> bool {
    for (name, first, second, number) in &TWO {
        if table.find(name, &[*first, *second]) != Some(*number) {
            return false;
        }
    }
    true
}

fn none_is_found(table: &CaseTable<52>) -> bool {
    for (name, first, second) in &NONE {
        if table.find(name, &[*first, *second]).is_some() {
            return false;
        }
    }
    true
}

/// Too few arguments, or too many.
fn other_counts_have_no_row(table: &CaseTable<52>) -> bool {
    let too_few = table.find("+", &[Kind::Int]).is_none() && table.find("isDef", &[]).is_none();
    too_few
        && table
            .find("=", &[Kind::Int, Kind::Int, Kind::Int])
            .is_none()
}

fn are_admitted(table: &CaseTable<52>) -> bool {
    for (name, first, second, wanted) in &ADMITTED {
        if table.admits(name, &[*first, *second]) != *wanted {
            return false;
        }
    }
    true
}

fn have_results(table: &CaseTable<52>) -> bool {
    for (number, operation, result) in &RESULTS {
        match table.rows.get(*number) {
            Some(row) => {
                if row.operation != *operation || row.result != *result {
                    return false;
                }
            }
            None => return false,
        }
    }
    true
}

#[test]
fn an_operator_has_its_row(rt: HostRuntime) -> Result<(), Fail> {
    let table = operators();
    at_most_one_row_matches(&table);
    assert!(rt; one_is_found(&table));
    assert!(rt; two_are_found(&table));
    Ok(())
}

#[test]
fn other_names_and_kinds_have_no_row(rt: HostRuntime) -> Result<(), Fail> {
    let table = operators();
    assert!(rt; none_is_found(&table));
    assert!(rt; other_counts_have_no_row(&table));
    Ok(())
}

#[test]
fn what_is_untyped_is_admitted_in_each_position(rt: HostRuntime) -> Result<(), Fail> {
    let table = operators();
    assert!(rt; are_admitted(&table));
    Ok(())
}

#[test]
fn a_row_has_its_operation_and_the_rule_of_its_result(rt: HostRuntime) -> Result<(), Fail> {
    let table = operators();
    assert!(rt; have_results(&table));
    Ok(())
}
