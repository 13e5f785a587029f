//! Terms with their canonical texts.
use asm_parse::parse_term;
use asm_print::print_term;
use asm_syntax::TermTree;
use std::alloc::{AllocError, Global};
use std::test::Fail;

/// Terms with parentheses that are needed, and such with parentheses that are not.
const OPERATORS: [(&str, &str); 13] = [
    ("1+(2*3)", "1 + 2 * 3"),
    ("(1+2)*3", "( 1 + 2 ) * 3"),
    ("(1 - 2) - 3", "1 - 2 - 3"),
    ("1 - (2 - 3)", "1 - ( 2 - 3 )"),
    ("a implies (b implies c)", "a implies b implies c"),
    ("(a implies b) implies c", "( a implies b ) implies c"),
    ("(1 = 2) < 3", "( 1 = 2 ) < 3"),
    ("not (1 = 2)", "not 1 = 2"),
    ("not (a and b)", "not ( a and b )"),
    ("-(1 * 2)", "- ( 1 * 2 )"),
    ("(a iff b) or c", "( a iff b ) or c"),
    ("(a and b) or (c xor d)", "a and b or ( c xor d )"),
    ("((1))", "1"),
];

/// Each other form of a term.
const FORMS: [(&str, &str); 16] = [
    ("$if", "$if"),
    ("\"a  //b\"", "\"a  //b\""),
    ("007n", "7"),
    ("/* none */undef", "undef"),
    ("f(1,$x)", "f ( 1 , $x )"),
    ("(1,(2),3)", "( 1 , 2 , 3 )"),
    (
        "(forall $x in D,$y in Seq(D) with true)",
        "( forall $x in D , $y in Seq ( D ) with true )",
    ),
    (
        "(exist $x in Prod(D,Integer) with $x=$x)",
        "( exist $x in Prod ( D , Integer ) with $x = $x )",
    ),
    (
        "(exist unique $x in Integer with not ($x = 1))",
        "( exist unique $x in Integer with not $x = 1 )",
    ),
    ("{1..(2)}", "{ 1 .. 2 }"),
    ("{}", "{ }"),
    ("{1,2}", "{ 1 , 2 }"),
    ("[1,[]]", "[ 1 , [ ] ]"),
    ("if a then 1 else (2) endif", "if a then 1 else 2 endif"),
    (
        "let ($x=1,$y=2) in ($x+$y) endlet",
        "let ( $x = 1 , $y = 2 ) in $x + $y endlet",
    ),
    (
        "switch a case 1:2 case 2:3 otherwise 4 endswitch",
        "switch a case 1 : 2 case 2 : 3 otherwise 4 endswitch",
    ),
];

fn has_text(alloc: Global, tree: &TermTree, want: &str) -> Result<bool, AllocError> {
    let text = print_term(alloc, tree)?;
    Ok(text.as_str() == want)
}

/// Whether the term of the text is printed so.
fn is_printed(alloc: Global, text: &str, want: &str) -> Result<bool, AllocError> {
    match parse_term(alloc, text) {
        Ok(tree) => has_text(alloc, &tree, want),
        Err(_) => Ok(false),
    }
}

/// Whether each term is printed so, and its canonical text as itself.
fn are_printed(alloc: Global, rows: &[(&str, &str)]) -> Result<bool, AllocError> {
    for (text, want) in rows {
        if !is_printed(alloc, text, want)? {
            return Ok(false);
        }
        if !is_printed(alloc, want, want)? {
            return Ok(false);
        }
    }
    Ok(true)
}

#[test]
fn parentheses_are_where_they_are_needed(rt: HostRuntime) -> Result<(), Fail> {
    assert!(rt; are_printed(rt.alloc(), &OPERATORS)?);
    Ok(())
}

#[test]
fn one_space_parts_two_tokens_of_a_term(rt: HostRuntime) -> Result<(), Fail> {
    assert!(rt; are_printed(rt.alloc(), &FORMS)?);
    Ok(())
}
