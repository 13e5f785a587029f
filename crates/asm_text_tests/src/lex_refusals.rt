//! Texts with their first refusal, and how it is shown.
use asm_lex::{LexRefusal, lex};
use std::alloc::{AllocError, Global};
use std::test::Fail;

/// Each text with its first refusal.
const REFUSALS: [(&str, LexRefusal); 14] = [
    ("a ; \"", LexRefusal::BadByte(2)),
    ("ab\u{b}", LexRefusal::BadByte(2)),
    ("aé", LexRefusal::BadByte(1)),
    ("a!", LexRefusal::BadByte(1)),
    (" $", LexRefusal::BadByte(1)),
    ("$1", LexRefusal::BadByte(0)),
    ("a \"b", LexRefusal::OpenString(2)),
    ("\"a\tb\"", LexRefusal::OpenString(0)),
    ("\"\" \"\n\" ;", LexRefusal::OpenString(3)),
    ("/*/", LexRefusal::OpenComment(0)),
    ("a /*b*/ /* c", LexRefusal::OpenComment(8)),
    (
        "x 170141183460469231731687303715884105728",
        LexRefusal::NumberTooLarge(2),
    ),
    (
        "170141183460469231731687303715884105728n",
        LexRefusal::NumberTooLarge(0),
    ),
    (
        "1 99999999999999999999999999999999999999999",
        LexRefusal::NumberTooLarge(2),
    ),
];

/// Each refusal as it is shown.
const SHOWN: [(LexRefusal, &str); 6] = [
    (
        LexRefusal::TextTooLong(262_145),
        "the text has 262145 bytes, and 262144 are the most",
    ),
    (LexRefusal::BadByte(3), "no token begins at byte 3"),
    (
        LexRefusal::OpenComment(0),
        "the comment at byte 0 has no end",
    ),
    (LexRefusal::OpenString(7), "the string at byte 7 has no end"),
    (
        LexRefusal::NumberTooLarge(9),
        "the number at byte 9 is too large",
    ),
    (LexRefusal::NoMemory, "memory ran out"),
];

fn is_refused(alloc: Global, text: &str, want: LexRefusal) -> bool {
    match lex(alloc, text) {
        Err(refusal) => refusal == want,
        Ok(_) => false,
    }
}

fn are_refused(alloc: Global) -> bool {
    for (text, want) in &REFUSALS {
        if !is_refused(alloc, text, *want) {
            return false;
        }
    }
    true
}

fn are_shown(alloc: Global) -> Result<bool, AllocError> {
    for (refusal, want) in &SHOWN {
        let shown = format!(in alloc; "{refusal}")?;
        if shown.as_str() != *want {
            return Ok(false);
        }
    }
    Ok(true)
}

/// A text of this many blanks.
fn blanks(alloc: Global, count: usize) -> Result<String, AllocError> {
    let mut text = String::new(alloc);
    for _ in 0..count {
        text.push(' ')?;
    }
    Ok(text)
}

/// 262,144 bytes are lexed, and one more is refused.
fn limit_is_exact(alloc: Global) -> Result<bool, AllocError> {
    let mut text = blanks(alloc, 262_144)?;
    let is_lexed = lex(alloc, text.as_str()).is_ok();
    text.push(' ')?;
    Ok(is_lexed && is_refused(alloc, text.as_str(), LexRefusal::TextTooLong(262_145)))
}

#[test]
fn the_first_refusal_has_its_place(rt: HostRuntime) {
    assert!(rt; are_refused(rt.alloc()));
}

#[test]
fn a_refusal_is_shown_with_its_place(rt: HostRuntime) -> Result<(), Fail> {
    assert!(rt; are_shown(rt.alloc())?);
    Ok(())
}

#[test]
fn a_text_has_at_most_262144_bytes(rt: HostRuntime) -> Result<(), Fail> {
    assert!(rt; limit_is_exact(rt.alloc())?);
    Ok(())
}
