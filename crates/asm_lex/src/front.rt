//! What is at an offset of a text.
ghost use Rattle.std.specs.Prelude.{◌≡◌, ℕ, ◌+◌, ◌-◌, ◌<◌, ◌≤◌, ◌∷◌, [], ◌==◌, true, false, length, take, drop, slice_index, IfOk};
ghost use Rattle.std.specs.Str.{IsCharBoundary};
ghost use Rattle.asm_syntax.specs.Bytes.{is_letter, is_digit};
ghost use Rattle.asm_syntax.specs.Lexes.{word_kind};
ghost use Rattle.asm_lex_theory.specs.Scan.{block_front, block_len, front_on, token_here};

use crate::runs::{self, Class};
use crate::words::{is_keyword, is_refused, is_symbol};
use asm_lex_theory::Front;
use asm_syntax::{Text, TokenKind, TokenRefusal};
use std::alloc::{AllocError, Global};

/// The bytes between two offsets.
fn piece(alloc: Global, text: &str, from: usize, to: usize) -> Result<Text, AllocError>
    requires from { IsCharBoundary text.now from }
    requires to { IsCharBoundary text.now to }
    requires order { from ≤ to }
    ensures { IfOk result (λ n. n ≡ take (to - from) (drop from text.now)) }
{
    Text::from_str(alloc, &text[from..to])
}

/// A word with its kind.
fn word_kind(name: Text) -> TokenKind
    ensures { result ≡ word_kind name }
{
    if is_keyword(name.as_str().as_bytes()) {
        TokenKind::Keyword(name)
    } else if is_refused(name.as_str().as_bytes()) {
        TokenKind::Refused(name)
    } else {
        TokenKind::Id(name)
    }
}

/// A letter, then letters and digits.
fn word(alloc: Global, text: &str, at: usize) -> Result<Front, AllocError>
    requires within { at < length text.now }
    requires letter { is_letter (slice_index text.now at) ≡ true }
    ensures { IfOk result (λ f. f ≡ token_here text.now at) }
{
    let len = runs::run(text.as_bytes(), Class::Word, at + 1) + 1;
    let name = piece(alloc, text, at, at + len)?;
    Ok(Front::Taken(word_kind(name), len))
}

/// Digits, and the `n` that belongs to them.
fn number(bytes: &[u8], at: usize) -> Front
    requires within { at < length bytes.now }
    requires digit { is_digit (slice_index bytes.now at) ≡ true }
    ensures { result ≡ token_here bytes.now at }
{
    let len = runs::run(bytes, Class::Digit, at + 1) + 1;
    match runs::decimal(&bytes[at..at + len]) {
        None => Front::Refusal(TokenRefusal::NumberTooLarge),
        Some(value) => {
            let marked = runs::marked(bytes, at + len);
            Front::Taken(TokenKind::Number(value), if marked { len + 1 } else { len })
        }
    }
}

/// A `$` with a word directly after it.
fn variable(alloc: Global, text: &str, at: usize) -> Result<Front, AllocError>
    requires within { at < length text.now }
    requires letter { is_letter (slice_index text.now at) ≡ false }
    requires digit { is_digit (slice_index text.now at) ≡ false }
    requires dollar { (slice_index text.now at == 36) ≡ true }
    ensures { IfOk result (λ f. f ≡ token_here text.now at) }
{
    let bytes = text.as_bytes();
    if at + 1 == bytes.len() {
        return Ok(Front::Refusal(TokenRefusal::BadByte));
    }
    if !runs::is_letter(bytes[at + 1]) {
        return Ok(Front::Refusal(TokenRefusal::BadByte));
    }
    let len = runs::run(bytes, Class::Word, at + 2) + 1;
    let name = piece(alloc, text, at + 1, at + 1 + len)?;
    Ok(Front::Taken(TokenKind::Var(name), len + 1))
}

/// Two quotes, and what is between them.
fn string(alloc: Global, text: &str, at: usize) -> Result<Front, AllocError>
    requires within { at < length text.now }
    requires letter { is_letter (slice_index text.now at) ≡ false }
    requires digit { is_digit (slice_index text.now at) ≡ false }
    requires dollar { (slice_index text.now at == 36) ≡ false }
    requires quote { (slice_index text.now at == 34) ≡ true }
    ensures { IfOk result (λ f. f ≡ token_here text.now at) }
{
    let bytes = text.as_bytes();
    let len = runs::run(bytes, Class::Chars, at + 1);
    if at + 1 + len == bytes.len() {
        return Ok(Front::Refusal(TokenRefusal::OpenString));
    }
    if bytes[at + 1 + len] != b'"' {
        return Ok(Front::Refusal(TokenRefusal::OpenString));
    }
    let name = piece(alloc, text, at + 1, at + 1 + len)?;
    Ok(Front::Taken(TokenKind::Chars(name), len + 2))
}

/// The symbol of two bytes, or else that of one.
fn symbol(alloc: Global, text: &str, at: usize) -> Result<Front, AllocError>
    requires within { at < length text.now }
    requires letter { is_letter (slice_index text.now at) ≡ false }
    requires digit { is_digit (slice_index text.now at) ≡ false }
    requires dollar { (slice_index text.now at == 36) ≡ false }
    requires quote { (slice_index text.now at == 34) ≡ false }
    ensures { IfOk result (λ f. f ≡ token_here text.now at) }
{
    let bytes = text.as_bytes();
    let first = bytes[at];
    if at + 1 < bytes.len() {
        let second = bytes[at + 1];
        if is_symbol(&[first, second]) {
            let name = piece(alloc, text, at, at + 2)?;
            return Ok(Front::Taken(TokenKind::Symbol(name), 2));
        }
    }
    if is_symbol(&[first]) {
        let name = piece(alloc, text, at, at + 1)?;
        return Ok(Front::Taken(TokenKind::Symbol(name), 1));
    }
    Ok(Front::Refusal(TokenRefusal::BadByte))
}

/// The token at an offset where no blank and no comment begins.
fn token(alloc: Global, text: &str, at: usize) -> Result<Front, AllocError>
    requires { at < length text.now }
    ensures { IfOk result (λ f. f ≡ token_here text.now at) }
{
    let bytes = text.as_bytes();
    let byte = bytes[at];
    if runs::is_letter(byte) {
        return word(alloc, text, at);
    }
    if runs::is_digit(byte) {
        return Ok(number(bytes, at));
    }
    if byte == b'$' {
        return variable(alloc, text, at);
    }
    if byte == b'"' {
        return string(alloc, text, at);
    }
    symbol(alloc, text, at)
}

/// What is at an offset: a blank, a comment, the longest token, or a refusal.
pub(crate) fn front(alloc: Global, text: &str, at: usize) -> Result<Front, AllocError>
    requires { at < length text.now }
    ensures { IfOk result (λ f. f ≡ front_on (drop at text.now)) }
{
    let bytes = text.as_bytes();
    if runs::is_blank(bytes[at]) {
        return Ok(Front::Gap(1));
    }
    if runs::begins(bytes, at, b'/', b'/') {
        let len = runs::run(bytes, Class::Line, at + 2);
        return Ok(Front::Gap(len + 2));
    }
    if runs::begins(bytes, at, b'/', b'*') {
        return Ok(comment(bytes, at));
    }
    token(alloc, text, at)
}

/// From a `/*` to the first `*/` after it.
fn comment(bytes: &[u8], at: usize) -> Front
    requires { at + 2 ≤ length bytes.now }
    ensures { result ≡ block_front (block_len (drop (at + 2) bytes.now)) }
{
    match runs::block(bytes, at + 2) {
        None => Front::Refusal(TokenRefusal::OpenComment),
        Some(len) => Front::Gap(len + 2),
    }
}
