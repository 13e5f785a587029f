//! A cursor over the tokens: what it sees ahead, what it takes, and the span of what was taken.
ghost use Rattle.std.specs.Prelude.{◌≡◌, length};
ghost use Rattle.asm_grammar.specs.Parser.{sees, expect, enter, taken};
ghost use Rattle.asm_syntax.specs.Marks.{is, is_one_of, id, variable, number, chars, keyword};
ghost use Rattle.asm_syntax.specs.Marks.{symbol, span_of};
ghost use Rattle.asm_parse_cursor.specs.Reads.{Lends};
ghost use Rattle.asm_parse_cursor.specs.Words.{keywords_of, symbols_of, marks_of};

use crate::refusal::GrammarRefusal;
use asm_syntax::{Span, Token, TokenKind};
use std::marker::Model;

/// The tokens that are left.
#[derive(Drop)]
pub struct Tokens<'a> {
    rest: &'a [Token],
}

impl<'a> Model for Tokens<'a> {
    ghost use Rattle.std.specs.Prelude.{List};
    ghost use Rattle.asm_syntax.specs.declared.token.Token.{Token as OneToken};

    ghost Value = { List OneToken };

    ghost view = { λ t. t.rest.now };
}

// ---- tests of a token

fn is_word(token: &Token, word: &str) -> bool
    ensures { result ≡ is (keyword word.now) token.now }
{
    match &token.kind {
        TokenKind::Keyword(name) => word == name.as_str(),
        TokenKind::Id(_)
        | TokenKind::Var(_)
        | TokenKind::Number(_)
        | TokenKind::Chars(_)
        | TokenKind::Refused(_)
        | TokenKind::Symbol(_) => false,
    }
}

fn is_sign(token: &Token, sign: &str) -> bool
    ensures { result ≡ is (symbol sign.now) token.now }
{
    match &token.kind {
        TokenKind::Symbol(name) => sign == name.as_str(),
        TokenKind::Id(_)
        | TokenKind::Var(_)
        | TokenKind::Number(_)
        | TokenKind::Chars(_)
        | TokenKind::Keyword(_)
        | TokenKind::Refused(_) => false,
    }
}

fn is_id(token: &Token) -> bool
    ensures { result ≡ is id token.now }
{
    matches!(&token.kind, TokenKind::Id(_))
}

fn is_variable(token: &Token) -> bool
    ensures { result ≡ is variable token.now }
{
    matches!(&token.kind, TokenKind::Var(_))
}

fn is_number(token: &Token) -> bool
    ensures { result ≡ is number token.now }
{
    matches!(&token.kind, TokenKind::Number(_))
}

fn is_chars(token: &Token) -> bool
    ensures { result ≡ is chars token.now }
{
    matches!(&token.kind, TokenKind::Chars(_))
}

fn is_one_sign(token: &Token, signs: &[&str]) -> bool
    ensures { result ≡ is_one_of (symbols_of signs.now) token.now }
{
    for sign in signs {
        if is_sign(token, sign) {
            return true;
        }
    }
    false
}

fn is_one_word(token: &Token, words: &[&str]) -> bool
    ensures { result ≡ is_one_of (keywords_of words.now) token.now }
{
    for word in words {
        if is_word(token, word) {
            return true;
        }
    }
    false
}

#[tactic(auto, using(crate::proofs::Spans::one_of_both))]
fn is_one(token: &Token, signs: &[&str], words: &[&str]) -> bool
    ensures { result ≡ is_one_of (marks_of signs.now words.now) token.now }
{
    is_one_sign(token, signs) || is_one_word(token, words)
}

/// From the first token to the last.
fn span_of(tokens: &[Token]) -> Span
    ensures { result ≡ span_of tokens.now }
{
    match (tokens.first(), tokens.last()) {
        (Some(first), Some(last)) => Span {
            start: first.span.start,
            end: last.span.end,
        },
        _ => Span { start: 0, end: 0 },
    }
}

impl<'a> Tokens<'a> {
    /// At the first of these tokens.
    pub fn new(rest: &'a [Token]) -> Tokens<'a>
        ensures { result ≡ rest.now }
    {
        Tokens { rest }
    }

    /// How many are left.
    pub fn left(&self) -> usize
        ensures { result ≡ length self.now }
    {
        self.rest.len()
    }

    /// Those that are left.
    pub fn rest(&self) -> &'a [Token]
        ensures { result.now ≡ self.now }
    {
        self.rest
    }

    /// From the first to the last of the tokens that were taken since these were left.
    pub fn span_since(&self, before: &[Token]) -> Span
        ensures { result ≡ span_of (taken before.now self.now) }
    {
        span_of(&before[..before.len().saturating_sub(self.rest.len())])
    }

    // ---- the next token

    /// Whether the next token is this quoted word.
    pub fn sees_word(&self, word: &str) -> bool
        ensures { result ≡ sees (is (keyword word.now)) self.now }
    {
        match self.rest.first() {
            Some(token) => is_word(token, word),
            None => false,
        }
    }

    /// Whether the next token is this symbol.
    pub fn sees_sign(&self, sign: &str) -> bool
        ensures { result ≡ sees (is (symbol sign.now)) self.now }
    {
        match self.rest.first() {
            Some(token) => is_sign(token, sign),
            None => false,
        }
    }

    /// Whether the next token is an ID.
    pub fn sees_id(&self) -> bool
        ensures { result ≡ sees (is id) self.now }
    {
        match self.rest.first() {
            Some(token) => is_id(token),
            None => false,
        }
    }

    /// Whether the next token is a VAR.
    pub fn sees_variable(&self) -> bool
        ensures { result ≡ sees (is variable) self.now }
    {
        match self.rest.first() {
            Some(token) => is_variable(token),
            None => false,
        }
    }

    /// Whether the next token is a NUMBER.
    pub fn sees_number(&self) -> bool
        ensures { result ≡ sees (is number) self.now }
    {
        match self.rest.first() {
            Some(token) => is_number(token),
            None => false,
        }
    }

    /// Whether the next token is a STRING.
    pub fn sees_chars(&self) -> bool
        ensures { result ≡ sees (is chars) self.now }
    {
        match self.rest.first() {
            Some(token) => is_chars(token),
            None => false,
        }
    }

    /// Whether the next token is one of these symbols and quoted words.
    pub fn sees_one(&self, signs: &[&str], words: &[&str]) -> bool
        ensures { result ≡ sees (is_one_of (marks_of signs.now words.now)) self.now }
    {
        match self.rest.first() {
            Some(token) => is_one(token, signs, words),
            None => false,
        }
    }

    /// Takes this quoted word.
    pub fn expect_word(&mut self, word: &str) -> Result<&'a Token, GrammarRefusal>
        ensures { Lends (expect (is (keyword word.now)) self.old) result self.new }
    {
        match self.rest.split_first() {
            Some((token, rest)) => {
                if is_word(token, word) {
                    self.rest = rest;
                    Ok(token)
                } else {
                    Err(GrammarRefusal::Syntax)
                }
            }
            None => Err(GrammarRefusal::Syntax),
        }
    }

    /// Takes this symbol.
    pub fn expect_sign(&mut self, sign: &str) -> Result<&'a Token, GrammarRefusal>
        ensures { Lends (expect (is (symbol sign.now)) self.old) result self.new }
    {
        match self.rest.split_first() {
            Some((token, rest)) => {
                if is_sign(token, sign) {
                    self.rest = rest;
                    Ok(token)
                } else {
                    Err(GrammarRefusal::Syntax)
                }
            }
            None => Err(GrammarRefusal::Syntax),
        }
    }

    /// Takes an ID.
    pub fn expect_id(&mut self) -> Result<&'a Token, GrammarRefusal>
        ensures { Lends (expect (is id) self.old) result self.new }
    {
        match self.rest.split_first() {
            Some((token, rest)) => {
                if is_id(token) {
                    self.rest = rest;
                    Ok(token)
                } else {
                    Err(GrammarRefusal::Syntax)
                }
            }
            None => Err(GrammarRefusal::Syntax),
        }
    }

    /// Takes a VAR.
    pub fn expect_variable(&mut self) -> Result<&'a Token, GrammarRefusal>
        ensures { Lends (expect (is variable) self.old) result self.new }
    {
        match self.rest.split_first() {
            Some((token, rest)) => {
                if is_variable(token) {
                    self.rest = rest;
                    Ok(token)
                } else {
                    Err(GrammarRefusal::Syntax)
                }
            }
            None => Err(GrammarRefusal::Syntax),
        }
    }

    /// Takes a NUMBER.
    pub fn expect_number(&mut self) -> Result<&'a Token, GrammarRefusal>
        ensures { Lends (expect (is number) self.old) result self.new }
    {
        match self.rest.split_first() {
            Some((token, rest)) => {
                if is_number(token) {
                    self.rest = rest;
                    Ok(token)
                } else {
                    Err(GrammarRefusal::Syntax)
                }
            }
            None => Err(GrammarRefusal::Syntax),
        }
    }

    /// Takes a STRING.
    pub fn expect_chars(&mut self) -> Result<&'a Token, GrammarRefusal>
        ensures { Lends (expect (is chars) self.old) result self.new }
    {
        match self.rest.split_first() {
            Some((token, rest)) => {
                if is_chars(token) {
                    self.rest = rest;
                    Ok(token)
                } else {
                    Err(GrammarRefusal::Syntax)
                }
            }
            None => Err(GrammarRefusal::Syntax),
        }
    }

    /// Takes one of these symbols and quoted words.
    pub fn expect_one(
        &mut self,
        signs: &[&str],
        words: &[&str],
    ) -> Result<&'a Token, GrammarRefusal>
        ensures { Lends (expect (is_one_of (marks_of signs.now words.now)) self.old) result self.new }
    {
        match self.rest.split_first() {
            Some((token, rest)) => {
                if is_one(token, signs, words) {
                    self.rest = rest;
                    Ok(token)
                } else {
                    Err(GrammarRefusal::Syntax)
                }
            }
            None => Err(GrammarRefusal::Syntax),
        }
    }

    /// Takes this quoted word, which opens a construct, if one more may be open.
    pub fn enter_word(&mut self, is_open: bool, word: &str) -> Result<&'a Token, GrammarRefusal>
        ensures { Lends (enter is_open (is (keyword word.now)) self.old) result self.new }
    {
        match self.rest.split_first() {
            Some((token, rest)) => {
                if !is_word(token, word) {
                    Err(GrammarRefusal::Syntax)
                } else if is_open {
                    self.rest = rest;
                    Ok(token)
                } else {
                    Err(GrammarRefusal::TooDeep)
                }
            }
            None => Err(GrammarRefusal::Syntax),
        }
    }

    /// Takes this symbol, which opens a construct, if one more may be open.
    pub fn enter_sign(&mut self, is_open: bool, sign: &str) -> Result<&'a Token, GrammarRefusal>
        ensures { Lends (enter is_open (is (symbol sign.now)) self.old) result self.new }
    {
        match self.rest.split_first() {
            Some((token, rest)) => {
                if !is_sign(token, sign) {
                    Err(GrammarRefusal::Syntax)
                } else if is_open {
                    self.rest = rest;
                    Ok(token)
                } else {
                    Err(GrammarRefusal::TooDeep)
                }
            }
            None => Err(GrammarRefusal::Syntax),
        }
    }

    /// Takes one of these symbols and quoted words, which opens a construct, if one more may be open.
    pub fn enter_one(
        &mut self,
        is_open: bool,
        signs: &[&str],
        words: &[&str],
    ) -> Result<&'a Token, GrammarRefusal>
        ensures { Lends (enter is_open (is_one_of (marks_of signs.now words.now)) self.old) result self.new }
    {
        match self.rest.split_first() {
            Some((token, rest)) => {
                if !is_one(token, signs, words) {
                    Err(GrammarRefusal::Syntax)
                } else if is_open {
                    self.rest = rest;
                    Ok(token)
                } else {
                    Err(GrammarRefusal::TooDeep)
                }
            }
            None => Err(GrammarRefusal::Syntax),
        }
    }
}
