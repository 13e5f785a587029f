//! A cursor over the tokens: what it sees ahead, and what it takes.
ghost use Rattle.std.specs.Prelude.{◌≡◌, length};
ghost use Rattle.asm_grammar.specs.Parser.{sees, expect};
ghost use Rattle.asm_formula.specs.Tokens.{is_name};
ghost use Rattle.asm_formula.specs.Grammar.{is_open, is_close, is_operator};
ghost use Rattle.asm_formula.specs.Grammar as grammar;
ghost use Rattle.asm_formula.specs.Parsing.{next_operator};
ghost use Rattle.asm_formula.specs.Reading.{place};
ghost use Rattle.asm_formula.specs.Reads.{Lends};

use crate::formula::Operator;
use crate::token::{Token, TokenKind};
use std::alloc::AllocError;
use std::marker::Model;

/// Why no formula is read.
#[derive(Clone, Copy, Debug, PartialEq, Eq)]
pub(crate) enum Halt {
    /// No formula has the next token, or the end, at this place.
    Syntax,
    /// Memory ran out. It says nothing of the tokens.
    NoMemory,
}

impl From<AllocError> for Halt {
    ghost use Rattle.std.specs.Prelude.{◌≡◌};
    ghost use Rattle.asm_formula.specs.declared.tokens.Halt.TheVariants.{NoMemory};

    ghost from_gives = { λ _ e. e ≡ NoMemory };

    fn from(_error: AllocError) -> Halt {
        Halt::NoMemory
    }
}

/// The tokens that are left.
#[derive(Drop)]
pub(crate) struct Tokens<'a> {
    rest: &'a [Token],
}

impl<'a> Model for Tokens<'a> {
    ghost use Rattle.std.specs.Prelude.{List};
    ghost use Rattle.asm_formula.specs.declared.token.Token.{Token as OneToken};

    ghost Value = { List OneToken };

    ghost view = { λ t. t.rest.now };
}

// ---- tests of a token

fn is_same(one: Operator, other: Operator) -> bool
    ensures { result ≡ grammar.is_same one other }
{
    match one {
        Operator::Pipe => matches!(other, Operator::Pipe),
        Operator::Both => matches!(other, Operator::Both),
        Operator::Half => matches!(other, Operator::Half),
        Operator::Cross => matches!(other, Operator::Cross),
    }
}

fn is_open(token: &Token) -> bool
    ensures { result ≡ is_open token.now }
{
    match &token.kind {
        TokenKind::Opens => true,
        TokenKind::Name(_) | TokenKind::Joins(_) | TokenKind::Closes => false,
    }
}

fn is_close(token: &Token) -> bool
    ensures { result ≡ is_close token.now }
{
    match &token.kind {
        TokenKind::Closes => true,
        TokenKind::Name(_) | TokenKind::Joins(_) | TokenKind::Opens => false,
    }
}

fn is_operator(token: &Token, operator: Operator) -> bool
    ensures { result ≡ is_operator operator token.now }
{
    match &token.kind {
        TokenKind::Joins(other) => is_same(operator, *other),
        TokenKind::Name(_) | TokenKind::Opens | TokenKind::Closes => false,
    }
}

impl<'a> Tokens<'a> {
    /// At the first of these tokens.
    pub(crate) fn new(rest: &'a [Token]) -> Tokens<'a>
        ensures { result ≡ rest.now }
    {
        Tokens { rest }
    }

    /// How many are left.
    pub(crate) fn left(&self) -> usize
        ensures { result ≡ length self.now }
    {
        self.rest.len()
    }

    /// Where they begin, in a text of so many bytes.
    pub(crate) fn place(&self, bytes: u64) -> u64
        ensures { result ≡ place bytes self.now }
    {
        match self.rest.first() {
            Some(token) => token.at,
            None => bytes,
        }
    }

    // ---- the next token

    /// Whether it is a name.
    pub(crate) fn sees_name(&self) -> bool
        ensures { result ≡ sees is_name self.now }
    {
        match self.rest.first() {
            Some(token) => token.is_name(),
            None => false,
        }
    }

    /// Whether it is this operator.
    pub(crate) fn sees_operator(&self, operator: Operator) -> bool
        ensures { result ≡ sees (is_operator operator) self.now }
    {
        match self.rest.first() {
            Some(token) => is_operator(token, operator),
            None => false,
        }
    }

    /// The operator that it is.
    pub(crate) fn operator(&self) -> Option<Operator>
        ensures { result ≡ next_operator self.now }
    {
        match self.rest.first() {
            Some(token) => match &token.kind {
                TokenKind::Joins(operator) => Some(*operator),
                TokenKind::Name(_) | TokenKind::Opens | TokenKind::Closes => None,
            },
            None => None,
        }
    }

    /// Takes a name.
    pub(crate) fn expect_name(&mut self) -> Result<&'a Token, Halt>
        ensures { Lends (expect is_name self.old) result self.new }
    {
        match self.rest.split_first() {
            Some((token, rest)) => {
                if token.is_name() {
                    self.rest = rest;
                    Ok(token)
                } else {
                    Err(Halt::Syntax)
                }
            }
            None => Err(Halt::Syntax),
        }
    }

    /// Takes a `(`.
    pub(crate) fn expect_open(&mut self) -> Result<&'a Token, Halt>
        ensures { Lends (expect is_open self.old) result self.new }
    {
        match self.rest.split_first() {
            Some((token, rest)) => {
                if is_open(token) {
                    self.rest = rest;
                    Ok(token)
                } else {
                    Err(Halt::Syntax)
                }
            }
            None => Err(Halt::Syntax),
        }
    }

    /// Takes a `)`.
    pub(crate) fn expect_close(&mut self) -> Result<&'a Token, Halt>
        ensures { Lends (expect is_close self.old) result self.new }
    {
        match self.rest.split_first() {
            Some((token, rest)) => {
                if is_close(token) {
                    self.rest = rest;
                    Ok(token)
                } else {
                    Err(Halt::Syntax)
                }
            }
            None => Err(Halt::Syntax),
        }
    }

    /// Takes this operator.
    pub(crate) fn expect_operator(&mut self, operator: Operator) -> Result<&'a Token, Halt>
        ensures { Lends (expect (is_operator operator) self.old) result self.new }
    {
        match self.rest.split_first() {
            Some((token, rest)) => {
                if is_operator(token, operator) {
                    self.rest = rest;
                    Ok(token)
                } else {
                    Err(Halt::Syntax)
                }
            }
            None => Err(Halt::Syntax),
        }
    }
}
