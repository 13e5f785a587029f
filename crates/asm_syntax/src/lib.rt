//! Tokens, trees and the grammar of texts: what a text is, before it means anything.
#![tactic(auto)]

mod places;
mod spans;
mod token;
mod token_refusal;
mod tree;

pub use asm_base::{Boxed, List, Text};
pub use places::{LineColumn, place, within};
pub use token::{Span, Token, TokenKind};
pub use token_refusal::TokenRefusal;
pub use tree::{
    BindTree, BindsTree, CaseTree, DeclTree, DefTree, DomainTree, InitTree, IntTree, ModelTree,
    ParamsTree, RangeTree, RangesTree, RuleCaseTree, RuleTree, StartTree, TermTree, TermsTree,
};
