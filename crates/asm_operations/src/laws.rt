//! Laws of the operations; each function does nothing.
ghost use Rattle.std.specs.Prelude.{◌≡◌, ◌≢◌, ℤ, pos, true, false, List};
ghost use Rattle.asm_value.specs.declared.value.Value.{Value};
ghost use Rattle.asm_tables.specs.declared.rows.Operation.{Operation};
ghost use Rattle.asm_operations.specs.Operations.{apply, is_strict, tuple_of, sequence_of};
ghost use Rattle.asm_operations.specs.Operations.{set_of, interval_of};
ghost use Rattle.asm_operations.specs.Examples as example;
ghost use Rattle.asm_operations.specs.Laws as law;
ghost use Rattle.asm_operations.specs.Laws.{AreProper, IsProperResult, IsLimited};

/// Of values that may be, an operation gives one that may be: its sets ascend without repeats, and
/// none of its parts is undef. So do tuples, sequences, sets and intervals of such values.
pub fn what_operations_give_is_proper()
    ensures apply { (operation : Operation) (args : List Value) → AreProper args →
        IsProperResult (apply operation args) }
    ensures tuples { (vs : List Value) → AreProper vs → IsProperResult (tuple_of vs) }
    ensures sequences { (vs : List Value) → AreProper vs → IsProperResult (sequence_of vs) }
    ensures sets { (vs : List Value) → AreProper vs → IsProperResult (set_of vs) }
    ensures intervals { (v w : Value) → IsProperResult (interval_of v w) }
{}

/// Whatever the arguments, a value that is given keeps the limits.
pub fn what_operations_give_is_limited()
    ensures apply { (operation : Operation) (args : List Value) →
        IsLimited (apply operation args) }
    ensures tuples { (vs : List Value) → IsLimited (tuple_of vs) }
    ensures sequences { (vs : List Value) → IsLimited (sequence_of vs) }
    ensures sets { (vs : List Value) → IsLimited (set_of vs) }
    ensures intervals { (v w : Value) → IsLimited (interval_of v w) }
{}

/// A strict row is undef where an argument is. The rows of `=`, `!=`, `isDef` and `isUndef` are not
/// strict; they are never undef.
pub fn strict_operations_are_undef_of_undef()
    ensures strict { (operation : Operation) → is_strict operation ≡ true →
        law.IsUndefOfUndef operation }
    ensures others { (operation : Operation) → is_strict operation ≡ false →
        law.IsNeverUndef operation }
{}

/// By a divisor other than 0 a number is the quotient times the divisor and what is left, which is
/// 0 or has the divisor's sign, and is nearer to 0. So the quotient is rounded down.
pub fn quotients_are_rounded_down()
    ensures whole { (x d : ℤ) → d ≢ pos 0 → law.IsDivided x d }
    ensures left { (x d : ℤ) → law.IsRest x d }
{}

/// What each set has: `union` what either has, `intersection` what both have, `difference` what the
/// first alone has, `including` and `excluding` the one item more or less, and the set of a list's
/// items exactly those.
pub fn sets_have_what_they_say()
    ensures union { law.HasEither }
    ensures intersection { law.HasBoth }
    ensures difference { law.HasFirstAlone }
    ensures including { law.HasOneMore }
    ensures excluding { law.HasOneLess }
    ensures items { law.HasEachItem }
{}

/// Examples of each row, in the order of the table, and of the terms; worked out by hand.
#[tactic(auto, using(asm_value::proofs::ValueLaws::value_steps))]
pub fn operations_give_what_the_examples_say()
    ensures arithmetic { example.Arithmetic }
    ensures comparisons { example.Comparisons }
    ensures connectives { example.Connectives }
    ensures strings { example.Strings }
    ensures sequences { example.Sequences }
    ensures sets { example.Sets }
    ensures parts { example.Parts }
    ensures undefined { example.Undefined }
    ensures limits { example.Limits }
    ensures terms { example.Terms }
{}
