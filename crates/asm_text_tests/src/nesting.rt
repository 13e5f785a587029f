//! Terms that open as many constructs as may be open, and one more.
use asm_parse::{ParseRefusal, parse_term};
use asm_syntax::Text;
use std::alloc::{AllocError, Global};
use std::test::Fail;

/// What is before `1` and after it, how many times, and the byte at which that is too deep.
const NESTED: [(&str, u32, &str, Option<u32>); 8] = [
    ("(", 64, ")", None),
    ("(", 65, ")", Some(64)),
    ("not ", 64, "", None),
    ("not ", 65, "", Some(256)),
    ("1+", 64, "", None),
    ("1+", 65, "", Some(129)),
    ("1 implies ", 64, "", None),
    ("1 implies ", 65, "", Some(642)),
];

fn push_times(text: &mut Text, word: &str, times: u32) -> Result<(), AllocError> {
    for _ in 0..times {
        text.push_str(word)?;
    }
    Ok(())
}

fn nested(alloc: Global, before: &str, times: u32, after: &str) -> Result<Text, AllocError> {
    let mut text = Text::new(alloc);
    push_times(&mut text, before, times)?;
    text.push_str("1")?;
    push_times(&mut text, after, times)?;
    Ok(text)
}

/// Whether a term is read, or refused as too deep at this byte.
fn is_answered(alloc: Global, text: &str, too_deep: Option<u32>) -> bool {
    let why = parse_term(alloc, text).err();
    match &why {
        None => too_deep.is_none(),
        Some(ParseRefusal::TooDeep(at)) => too_deep == Some(*at),
        Some(_) => false,
    }
}

fn are_answered(alloc: Global) -> Result<bool, AllocError> {
    for (before, times, after, too_deep) in &NESTED {
        let text = nested(alloc, before, *times, after)?;
        if !is_answered(alloc, text.as_str(), *too_deep) {
            return Ok(false);
        }
    }
    Ok(true)
}

#[test]
fn at_most_64_constructs_are_open(rt: HostRuntime) -> Result<(), Fail> {
    assert!(rt; are_answered(rt.alloc())?);
    Ok(())
}
