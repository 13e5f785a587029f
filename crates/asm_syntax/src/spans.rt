//! Where trees are in their text.
ghost use Rattle.std.specs.Prelude.{◌≡◌};
ghost use Rattle.asm_syntax.specs.Extents.{extent, rule_extent, domain_extent, decl_extent, def_extent};

use crate::token::Span;
use crate::tree::{DeclTree, DefTree, DomainTree, RuleTree, TermTree};

impl DomainTree {
    /// From the first token to the last. Takes no memory.
    #[tactic(auto, unfolding(crate::specs::Extents::domain_extent))]
    pub fn span(&self) -> Span
        ensures { result ≡ domain_extent self.now }
    {
        match self {
            DomainTree::Truth(span)
            | DomainTree::Int(span)
            | DomainTree::Nat(span)
            | DomainTree::Chars(span)
            | DomainTree::Named(_, span)
            | DomainTree::Prod(_, _, _, span)
            | DomainTree::Seq(_, span)
            | DomainTree::Powerset(_, span) => *span,
        }
    }
}

impl TermTree {
    /// From the first token to the last, parentheses round the term included. Takes no memory.
    #[tactic(auto, unfolding(crate::specs::Extents::extent))]
    pub fn span(&self) -> Span
        ensures { result ≡ extent self.now }
    {
        match self {
            TermTree::Prefix(_, _, span)
            | TermTree::Binary(_, _, _, span)
            | TermTree::Number(_, span)
            | TermTree::Chars(_, span)
            | TermTree::True(span)
            | TermTree::False(span)
            | TermTree::Undef(span)
            | TermTree::Var(_, span)
            | TermTree::Name(_, _, span)
            | TermTree::Tuple(_, span)
            | TermTree::Forall(_, _, span)
            | TermTree::Exist(_, _, _, span)
            | TermTree::Interval(_, _, span)
            | TermTree::Set(_, span)
            | TermTree::Seq(_, span)
            | TermTree::If(_, _, _, span)
            | TermTree::Let(_, _, span)
            | TermTree::Switch(_, _, _, span) => *span,
        }
    }
}

impl RuleTree {
    /// From the first token to the last. Takes no memory.
    #[tactic(auto, unfolding(crate::specs::Extents::rule_extent))]
    pub fn span(&self) -> Span
        ensures { result ≡ rule_extent self.now }
    {
        match self {
            RuleTree::Skip(span)
            | RuleTree::Call(_, _, span)
            | RuleTree::Update(_, _, _, span)
            | RuleTree::Par(_, _, span)
            | RuleTree::Seq(_, _, span)
            | RuleTree::If(_, _, _, span)
            | RuleTree::Forall(_, _, _, span)
            | RuleTree::Choose(_, _, _, _, span)
            | RuleTree::Let(_, _, span)
            | RuleTree::Switch(_, _, _, span)
            | RuleTree::Extend(_, _, _, _, span) => *span,
        }
    }
}

impl DeclTree {
    /// From the first token to the last, a `dynamic` included. Takes no memory.
    pub fn span(&self) -> Span
        ensures { result ≡ decl_extent self.now }
    {
        match self {
            DeclTree::Enum(_, _, _, span)
            | DeclTree::Abstract(_, span)
            | DeclTree::Subset(_, _, span)
            | DeclTree::Defined(_, _, _, _, span)
            | DeclTree::Dynamic(_, _, _, _, span) => *span,
        }
    }
}

impl DefTree {
    /// From the first token to the last, a `macro` included. Takes no memory.
    pub fn span(&self) -> Span
        ensures { result ≡ def_extent self.now }
    {
        match self {
            DefTree::Interval(_, _, _, span)
            | DefTree::Integers(_, _, _, span)
            | DefTree::Function(_, _, _, span)
            | DefTree::Rule(_, _, _, span)
            | DefTree::Invariant(_, _, _, _, span) => *span,
        }
    }
}
