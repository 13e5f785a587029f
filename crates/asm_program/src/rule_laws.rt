//! What macro calls amount to: macro rules are defined by equations, and the limit of following
//! calls is never met. Each function does nothing.
ghost use Rattle.std.specs.Prelude.{◌≡◌, ◌≤◌, ℕ, Option, Some, None, List};
ghost use Rattle.asm_value.specs.declared.value.Value.{Value};
ghost use Rattle.asm_value.specs.State.{StateMap};
ghost use Rattle.asm_program.specs.declared.trees.Rule.{Rule};
ghost use Rattle.asm_program.specs.declared.program.Program.{Program};
ghost use Rattle.asm_program.specs.Forms.{rule_of};
ghost use Rattle.asm_program.specs.Yields.{nothing, rule_values, yields};
ghost use Rattle.asm_program.specs.YieldsLaws.{YieldsByParts};

/// A rule yields what one level of it yields, with what each part yields in its place.
pub fn a_rule_yields_what_its_parts_yield()
    ensures { YieldsByParts }
{}

/// A macro rule yields with values for its parameters what its body yields with them as its
/// variables; one that isn't there yields nothing.
pub fn a_macro_call_yields_what_its_body_yields()
    ensures body { (p : Program) (pick : Option ℕ) (m : ℕ) (body : Rule) →
        rule_of p.macros m ≡ Some body → rule_values p pick 512 m ≡ yields p pick body }
    ensures none { (p : Program) (pick : Option ℕ) (m : ℕ) (state : StateMap)
        (vs : List Value) (next : List ℕ) → rule_of p.macros m ≡ None →
        rule_values p pick 512 m state vs next ≡ nothing next }
{}

/// No macro rule of a program reaches itself, so to follow calls deeper changes nothing.
pub fn following_macro_calls_deeper_changes_nothing()
    ensures { (p : Program) (pick : Option ℕ) (n m : ℕ) → 512 ≤ n →
        rule_values p pick n m ≡ rule_values p pick 512 m }
{}
