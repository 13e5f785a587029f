//! Texts with the tokens that they have.
use asm_lex::lex;
use asm_syntax::{Span, Token, TokenKind};
use std::alloc::{AllocError, Global};
use std::test::Fail;

/// Each text with its tokens: kind, word and span.
const LONGEST: [(&str, &str); 10] = [
    (" \t\r\n", ""),
    ("_a1 Bc", "id _a1 0..3;id Bc 4..6;"),
    (
        "iff if ifx If",
        "keyword iff 0..3;keyword if 4..6;id ifx 7..10;id If 11..13;",
    ),
    (
        "module modules INVAR invariant undef Undef",
        "refused module 0..6;id modules 7..14;refused INVAR 15..20;keyword invariant 21..30;keyword undef 31..36;refused Undef 37..42;",
    ),
    ("$x$if$while", "var x 0..2;var if 2..5;var while 5..11;"),
    (
        "<=>=<>...:=:",
        "symbol <= 0..2;symbol >= 2..4;symbol < 4..5;symbol > 5..6;symbol .. 6..8;symbol . 8..9;symbol := 9..11;symbol : 11..12;",
    ),
    (
        "a->b-c!=d",
        "id a 0..1;symbol -> 1..3;id b 3..4;symbol - 4..5;id c 5..6;symbol != 6..8;id d 8..9;",
    ),
    ("\"\"\"a /*b\"", "chars  0..2;chars a /*b 2..9;"),
    ("\"é\"x", "chars é 0..4;id x 4..5;"),
    ("", ""),
];

/// Digits, and the `n` that marks them or does not.
const MARKS: [(&str, &str); 8] = [
    ("007", "number 7 0..3;"),
    ("12n+1", "number 12 0..3;symbol + 3..4;number 1 4..5;"),
    ("12 n", "number 12 0..2;id n 3..4;"),
    ("12nn", "number 12 0..2;id nn 2..4;"),
    ("12n3", "number 12 0..2;id n3 2..4;"),
    ("12n_", "number 12 0..2;id n_ 2..4;"),
    ("12m", "number 12 0..2;id m 2..3;"),
    (
        "170141183460469231731687303715884105727",
        "number 170141183460469231731687303715884105727 0..39;",
    ),
];

/// Comments leave no token.
const COMMENTS: [(&str, &str); 6] = [
    ("a//b\nc", "id a 0..1;id c 5..6;"),
    ("/**/a//b", "id a 4..5;"),
    ("/*/a*/b", "id b 6..7;"),
    ("///*\na", "id a 5..6;"),
    ("/*//*/a", "id a 6..7;"),
    ("/*\n\"*/a/b", "id a 6..7;symbol / 7..8;id b 8..9;"),
];

fn kind_name(kind: &TokenKind) -> &str {
    match kind {
        TokenKind::Id(_) => "id",
        TokenKind::Var(_) => "var",
        TokenKind::Number(_) => "number",
        TokenKind::Chars(_) => "chars",
        TokenKind::Keyword(_) => "keyword",
        TokenKind::Refused(_) => "refused",
        TokenKind::Symbol(_) => "symbol",
    }
}

/// The token's kind, its word and its span.
fn token_line(alloc: Global, token: &Token) -> Result<String, AllocError> {
    let Span { start, end } = token.span;
    if let TokenKind::Number(number) = &token.kind {
        return format!(in alloc; "number {number} {start}..{end};");
    }
    let word = token.text(alloc)?;
    format!(in alloc;
        "{} {} {start}..{end};",
        kind_name(&token.kind),
        word.as_str()
    )
}

fn lines(alloc: Global, tokens: &[Token]) -> Result<String, AllocError> {
    let mut shown = String::new(alloc);
    for token in tokens {
        let line = token_line(alloc, token)?;
        shown.push_str(line.as_str())?;
    }
    Ok(shown)
}

/// Whether the text has these tokens.
fn has_tokens(alloc: Global, text: &str, want: &str) -> Result<bool, AllocError> {
    match lex(alloc, text) {
        Err(_) => Ok(false),
        Ok(tokens) => {
            let shown = lines(alloc, tokens.as_slice())?;
            Ok(shown.as_str() == want)
        }
    }
}

fn have_tokens(alloc: Global, rows: &[(&str, &str)]) -> Result<bool, AllocError> {
    for (text, want) in rows {
        if !has_tokens(alloc, text, want)? {
            return Ok(false);
        }
    }
    Ok(true)
}

#[test]
fn a_token_is_the_longest_that_fits(rt: HostRuntime) -> Result<(), Fail> {
    assert!(rt; have_tokens(rt.alloc(), &LONGEST)?);
    Ok(())
}

#[test]
fn a_mark_belongs_to_the_digits_before_it(rt: HostRuntime) -> Result<(), Fail> {
    assert!(rt; have_tokens(rt.alloc(), &MARKS)?);
    Ok(())
}

#[test]
fn a_comment_leaves_no_token(rt: HostRuntime) -> Result<(), Fail> {
    assert!(rt; have_tokens(rt.alloc(), &COMMENTS)?);
    Ok(())
}
