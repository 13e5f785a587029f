//! What calls amount to: functions are defined by equations, and the limit of following calls is
//! never met. Each function does nothing.
ghost use Rattle.std.specs.Prelude.{◌≡◌, ◌≤◌, ℕ, List, Some, None};
ghost use Rattle.asm_value.specs.declared.value.Value.{Value};
ghost use Rattle.asm_value.specs.State.{StateMap};
ghost use Rattle.asm_program.specs.declared.trees.Term.{Term};
ghost use Rattle.asm_program.specs.declared.program.Program.{Program};
ghost use Rattle.asm_program.specs.Forms.{body_of};
ghost use Rattle.asm_program.specs.Meaning.{values, eval, undefined};
ghost use Rattle.asm_program.specs.MeaningLaws.{MeansByParts};

/// A term gives what one level of it gives, with the meaning of each part in its place.
pub fn a_term_gives_what_its_parts_give()
    ensures { MeansByParts }
{}

/// A function that is defined by a term gives for arguments what that term gives with them as its
/// variables; one that no term defines is undef.
pub fn a_call_gives_what_its_body_gives()
    ensures body { (p : Program) (state : StateMap) (f : ℕ) (body : Term) (vs : List Value) →
        body_of p.functions f ≡ Some body → values p state 512 f vs ≡ eval p state body vs }
    ensures none { (p : Program) (state : StateMap) (f : ℕ) (vs : List Value) →
        body_of p.functions f ≡ None → values p state 512 f vs ≡ undefined }
{}

/// No function of a program reaches itself, so to follow calls deeper changes nothing.
pub fn following_calls_deeper_changes_nothing()
    ensures { (p : Program) (state : StateMap) (n f : ℕ) (vs : List Value) → 512 ≤ n →
        values p state n f vs ≡ values p state 512 f vs }
{}
