//! Texts of models and of terms that are refused, and where.
use asm_parse::{ParseRefusal, parse_model, parse_term};
use std::alloc::Global;

/// What is answered to a text; a refusal with the byte that it is at.
#[derive(Clone, Copy, PartialEq, Eq)]
enum Answer {
    Read,
    Lexer,
    Syntax(u32),
    Unsupported(u32),
    TooDeep(u32),
    NoMemory,
}

const MODELS: [(&str, Answer); 9] = [
    ("", Answer::Syntax(0)),
    ("asm", Answer::Syntax(3)),
    (
        "asm L signature: definitions: main rule r = par skip",
        Answer::Syntax(52),
    ),
    (
        "asm L signature: definitions: main rule r = skip skip",
        Answer::Syntax(49),
    ),
    ("asm L import a/StandardLibrary signature: ~", Answer::Lexer),
    ("asm L import a/Agents signature:", Answer::Unsupported(13)),
    ("asm L import signature: import b", Answer::Syntax(13)),
    (
        "asm L signature: definitions: main rule r = while",
        Answer::Unsupported(44),
    ),
    (
        "asm L signature: definitions: r = while",
        Answer::Syntax(30),
    ),
];

const TERMS: [(&str, Answer); 8] = [
    ("f(1, $x) then", Answer::Syntax(9)),
    ("f()", Answer::Syntax(2)),
    ("a = a = a", Answer::Syntax(6)),
    ("exist $x in Integer with $x = 1", Answer::Syntax(0)),
    ("{1, a .. a}", Answer::Syntax(6)),
    ("switch a", Answer::Syntax(8)),
    ("skip", Answer::Syntax(0)),
    ("1 // two", Answer::Read),
];

fn named(why: &Option<ParseRefusal>) -> Answer {
    match why {
        None => Answer::Read,
        Some(ParseRefusal::Lex(_)) => Answer::Lexer,
        Some(ParseRefusal::Syntax(at)) => Answer::Syntax(*at),
        Some(ParseRefusal::Unsupported(_, at)) => Answer::Unsupported(*at),
        Some(ParseRefusal::TooDeep(at)) => Answer::TooDeep(*at),
        Some(ParseRefusal::NoMemory) => Answer::NoMemory,
    }
}

fn model_answer(alloc: Global, text: &str) -> Answer {
    let why = parse_model(alloc, text).err();
    named(&why)
}

fn term_answer(alloc: Global, text: &str) -> Answer {
    let why = parse_term(alloc, text).err();
    named(&why)
}

fn models_are_answered(alloc: Global) -> bool {
    for (text, want) in &MODELS {
        if model_answer(alloc, text) != *want {
            return false;
        }
    }
    true
}

fn terms_are_answered(alloc: Global) -> bool {
    for (text, want) in &TERMS {
        if term_answer(alloc, text) != *want {
            return false;
        }
    }
    true
}

#[test]
fn the_first_refusal_of_a_model_is_at_its_byte(rt: HostRuntime) {
    assert!(rt; models_are_answered(rt.alloc()));
}

#[test]
fn the_first_refusal_of_a_term_is_at_its_byte(rt: HostRuntime) {
    assert!(rt; terms_are_answered(rt.alloc()));
}
