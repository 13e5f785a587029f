//! Trees of texts. A tree has one variant for each alternative of its grammar rule, an inner choice
//! being written out as variants, with the alternative's parts in their order and the span of its
//! tokens. What may be left out is an `Option`, what is repeated a `List`, a word that
//! may be left out a `bool`, and a choice of words a `Text`.
//!
//! Words that are always there have no field. Neither have imports, `dynamic`, `macro`, and which
//! of two separators or range signs was written.
use crate::token::{Span, Token};
use asm_base::{Boxed, List, Text};

// ---- domains

/// A domain.
#[derive(Drop)]
pub enum DomainTree {
    Truth(Span),
    Int(Span),
    Nat(Span),
    Chars(Span),
    /// A declared domain.
    Named(Token, Span),
    /// The first part, the second, and those after them.
    Prod(Boxed<DomainTree>, Boxed<DomainTree>, List<Boxed<DomainTree>>, Span),
    Seq(Boxed<DomainTree>, Span),
    Powerset(Boxed<DomainTree>, Span),
}

/// A variable and the domain of its values.
#[derive(Drop)]
pub struct RangeTree {
    pub variable: Token,
    pub domain: Boxed<DomainTree>,
}

/// One range or more.
#[derive(Drop)]
pub struct RangesTree {
    pub first: RangeTree,
    pub others: List<RangeTree>,
    pub span: Span,
}

/// Ranges in parentheses.
#[derive(Drop)]
pub struct ParamsTree {
    pub ranges: RangesTree,
    pub span: Span,
}

/// A number, and whether a `-` is before it.
#[derive(Drop)]
pub struct IntTree {
    pub is_negative: bool,
    pub number: Token,
    pub span: Span,
}

// ---- terms

/// A term. That of a term in parentheses is the term's own, with a span that includes them.
#[cycle(terms)]
#[derive(Drop)]
pub enum TermTree {
    /// The operator `not` or `-`, and its operand.
    Prefix(Text, Boxed<TermTree>, Span),
    /// The left operand, the operator and the right operand.
    Binary(Boxed<TermTree>, Text, Boxed<TermTree>, Span),
    Number(Token, Span),
    Chars(Token, Span),
    True(Span),
    False(Span),
    Undef(Span),
    Var(Token, Span),
    /// A name, and its arguments where it has parentheses.
    Name(Token, Option<TermsTree>, Span),
    /// Two terms or more in parentheses.
    Tuple(TermsTree, Span),
    Forall(RangesTree, Boxed<TermTree>, Span),
    /// Whether `unique` is there, the ranges and the body.
    Exist(bool, RangesTree, Boxed<TermTree>, Span),
    /// The set of the integers from one end to the other.
    Interval(Boxed<TermTree>, Boxed<TermTree>, Span),
    /// A set by its items.
    Set(Option<TermsTree>, Span),
    Seq(Option<TermsTree>, Span),
    /// The guard, the term where it holds, and the term after `else`.
    If(Boxed<TermTree>, Boxed<TermTree>, Option<Boxed<TermTree>>, Span),
    Let(BindsTree, Boxed<TermTree>, Span),
    /// The term that is compared, the cases, and the term after `otherwise`.
    Switch(Boxed<TermTree>, List<CaseTree>, Option<Boxed<TermTree>>, Span),
}

/// One term or more, with commas between them.
#[cycle(terms)]
#[derive(Drop)]
pub struct TermsTree {
    pub first: Boxed<TermTree>,
    pub others: List<Boxed<TermTree>>,
}

/// A variable and the term of its value.
#[cycle(terms)]
#[derive(Drop)]
pub struct BindTree {
    pub variable: Token,
    pub value: Boxed<TermTree>,
}

/// What a `let` binds: one variable or more, in parentheses.
#[cycle(terms)]
#[derive(Drop)]
pub struct BindsTree {
    pub first: BindTree,
    pub others: List<BindTree>,
    pub span: Span,
}

/// A case of a term: what it is compared with, and what it gives.
#[cycle(terms)]
#[derive(Drop)]
pub struct CaseTree {
    pub value: Boxed<TermTree>,
    pub term: Boxed<TermTree>,
}

// ---- rules

/// A transition rule.
#[cycle(rules)]
#[derive(Drop)]
pub enum RuleTree {
    Skip(Span),
    /// A macro rule, and its arguments.
    Call(Token, Option<TermsTree>, Span),
    /// The function that is updated, its arguments, and the term of the new value.
    Update(Token, Option<TermsTree>, Boxed<TermTree>, Span),
    /// The first rule, and those after it.
    Par(Boxed<RuleTree>, List<Boxed<RuleTree>>, Span),
    /// The first rule, and those after it.
    Seq(Boxed<RuleTree>, List<Boxed<RuleTree>>, Span),
    /// The guard, the rule where it holds, and the rule after `else`.
    If(Boxed<TermTree>, Boxed<RuleTree>, Option<Boxed<RuleTree>>, Span),
    /// The ranges, the guard and the body.
    Forall(RangesTree, Option<Boxed<TermTree>>, Boxed<RuleTree>, Span),
    /// The ranges, the guard, the body and the rule after `ifnone`.
    Choose(RangesTree, Option<Boxed<TermTree>>, Boxed<RuleTree>, Option<Boxed<RuleTree>>, Span),
    Let(BindsTree, Boxed<RuleTree>, Span),
    /// The term that is compared, the cases, and the rule after `otherwise`.
    Switch(Boxed<TermTree>, List<RuleCaseTree>, Option<Boxed<RuleTree>>, Span),
    /// The abstract domain, the variables of its new members, and the body.
    Extend(Token, Token, List<Token>, Boxed<RuleTree>, Span),
}

/// A case of a rule: what the term is compared with, and the rule.
#[cycle(rules)]
#[derive(Drop)]
pub struct RuleCaseTree {
    pub value: Boxed<TermTree>,
    pub rule: Boxed<RuleTree>,
}

// ---- models

/// A declaration of the signature.
#[derive(Drop)]
pub enum DeclTree {
    /// The domain, its first literal, and those after it.
    Enum(Token, Token, List<Token>, Span),
    Abstract(Token, Span),
    /// The domain, and `Integer` or `Natural`.
    Subset(Token, Text, Span),
    /// `static` or `derived`, the function, and its domain; where there are two, those of its
    /// arguments and of its value.
    Defined(Text, Token, Boxed<DomainTree>, Option<Boxed<DomainTree>>, Span),
    /// `controlled`, `monitored`, `shared` or `out`, the function, and its domain or domains.
    Dynamic(Text, Token, Boxed<DomainTree>, Option<Boxed<DomainTree>>, Span),
}

/// A definition.
#[derive(Drop)]
pub enum DefTree {
    /// The subset, the least of its integers and the greatest.
    Interval(Token, IntTree, IntTree, Span),
    /// The subset, the first of its integers, and those after it.
    Integers(Token, IntTree, List<IntTree>, Span),
    /// A function, its parameters and its term.
    Function(Token, Option<ParamsTree>, Boxed<TermTree>, Span),
    /// A macro rule, its parameters and its body.
    Rule(Token, Option<ParamsTree>, Boxed<RuleTree>, Span),
    /// The invariant's name, the names that it is about, and its term.
    Invariant(Option<Token>, Token, List<Token>, Boxed<TermTree>, Span),
}

/// The initial term of a function, and its parameters.
#[derive(Drop)]
pub struct StartTree {
    pub function: Token,
    pub params: Option<ParamsTree>,
    pub term: Boxed<TermTree>,
}

/// An initial state: its name, and the initial terms.
#[derive(Drop)]
pub struct InitTree {
    pub name: Token,
    pub starts: List<StartTree>,
    pub span: Span,
}

/// A model. `main` is the span of the word `main`.
#[derive(Drop)]
pub struct ModelTree {
    pub name: Token,
    pub decls: List<DeclTree>,
    pub defs: List<DefTree>,
    pub main: Span,
    pub rule_name: Token,
    pub rule: Boxed<RuleTree>,
    pub init: Option<InitTree>,
    pub span: Span,
}
