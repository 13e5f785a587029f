//! What is at an offset of a formula's text.
ghost use Rattle.std.specs.Prelude.{◌≡◌, ◌+◌, ◌-◌, ◌<◌, ◌≤◌, true, length, take, drop};
ghost use Rattle.std.specs.Prelude.{slice_index, IfOk};
ghost use Rattle.std.specs.List.{prefix_len};
ghost use Rattle.std.specs.Str.{IsCharBoundary};
ghost use Rattle.asm_formula.specs.Tokens.{is_letter, is_name_byte, is_space, signs};
ghost use Rattle.asm_formula.specs.Scan.{sign_of, name_of, front_on};

use crate::formula::Operator;
use crate::token::{Front, TokenKind};
use asm_base::Text;
use std::alloc::{AllocError, Global};

/// An ASCII letter or `_`.
fn is_letter(byte: u8) -> bool
    ensures { result ≡ is_letter byte }
{
    matches!(byte, b'a'..=b'z' | b'A'..=b'Z' | b'_')
}

/// A letter or a digit.
fn is_name_byte(byte: u8) -> bool
    ensures { result ≡ is_name_byte byte }
{
    is_letter(byte) || matches!(byte, b'0'..=b'9')
}

fn is_space(byte: u8) -> bool
    ensures { result ≡ is_space byte }
{
    byte == b' '
}

/// How many bytes of a name follow one another from an offset on.
fn run(bytes: &[u8], from: usize) -> usize
    requires { from ≤ length bytes.now }
    ensures len { result ≡ prefix_len is_name_byte (drop from bytes.now) }
    ensures within { from + result ≤ length bytes.now }
{
    let mut end = from;
    while end < bytes.len() {
        if !is_name_byte(bytes[end]) {
            return end - from;
        }
        end += 1;
    }
    end - from
}

/// The bytes between two offsets.
fn piece(alloc: Global, text: &str, from: usize, to: usize) -> Result<Text, AllocError>
    requires from { IsCharBoundary text.now from }
    requires to { IsCharBoundary text.now to }
    requires order { from ≤ to }
    ensures { IfOk result (λ n. n ≡ take (to - from) (drop from text.now)) }
{
    Text::from_str(alloc, &text[from..to])
}

/// A letter, then bytes of a name.
fn name(alloc: Global, text: &str, at: usize) -> Result<Front, AllocError>
    requires within { at < length text.now }
    requires letter { is_letter (slice_index text.now at) ≡ true }
    ensures { IfOk result (λ f. f ≡ name_of (slice_index text.now at) (drop (at + 1) text.now)) }
{
    let len = run(text.as_bytes(), at + 1) + 1;
    let name = piece(alloc, text, at, at + len)?;
    Ok(Front::Taken(TokenKind::Name(name), len))
}

/// The longest sign with which the bytes start.
fn sign(bytes: &[u8]) -> Front
    ensures { result ≡ sign_of signs bytes.now }
{
    if bytes.starts_with(b"<||>") {
        Front::Taken(TokenKind::Joins(Operator::Cross), 4)
    } else if bytes.starts_with(b"<|>") {
        Front::Taken(TokenKind::Joins(Operator::Half), 3)
    } else if bytes.starts_with(b"||") {
        Front::Taken(TokenKind::Joins(Operator::Both), 2)
    } else if bytes.starts_with(b"|") {
        Front::Taken(TokenKind::Joins(Operator::Pipe), 1)
    } else if bytes.starts_with(b"(") {
        Front::Taken(TokenKind::Opens, 1)
    } else if bytes.starts_with(b")") {
        Front::Taken(TokenKind::Closes, 1)
    } else {
        Front::Nothing
    }
}

/// What is at an offset: a space, the longest token, or neither.
pub(crate) fn front(alloc: Global, text: &str, at: usize) -> Result<Front, AllocError>
    requires { at < length text.now }
    ensures { IfOk result (λ f. f ≡ front_on (drop at text.now)) }
{
    let bytes = text.as_bytes();
    if is_space(bytes[at]) {
        return Ok(Front::Blank);
    }
    if is_letter(bytes[at]) {
        return name(alloc, text, at);
    }
    Ok(sign(&bytes[at..]))
}
