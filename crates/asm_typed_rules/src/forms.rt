//! What rules are made of parts that are typed.
ghost use Rattle.std.specs.Prelude.{◌≡◌};
ghost use Rattle.asm_typed_rules.specs.Forms as forms;

use crate::typed::TypedRule;
use asm_program::{Rule, RuleCase, Term, TypeRefusal};
use asm_syntax::Span;
use asm_value::{Boxed, Domain, List};
use std::alloc::{AllocError, Global};

/// A rule without `choose` words.
pub(crate) fn simple(rule: Boxed<Rule>) -> TypedRule
    ensures rule { result.rule ≡ rule }
    ensures chooses { result.chooses ≡ 0 }
{
    TypedRule { rule, chooses: 0 }
}
