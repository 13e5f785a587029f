//! How tightly operators bind, by the number of their line in the grammar: `term` is 0 and `prim`
//! 9.
ghost use Rattle.std.specs.Prelude.{◌≡◌, ◌≤◌};
ghost use Rattle.asm_syntax.specs.Written as spec;
ghost use Rattle.asm_print_terms.specs.Parts.{relation_tightness as relation_tightness_of};

/// That of a term of a binary operator.
pub(crate) fn binary_tightness(op: &str) -> u8
    ensures value { result ≡ spec.binary_tightness op.now }
    ensures most { result ≤ 7 }
{
    if "iff" == op {
        0
    } else if "implies" == op {
        1
    } else if "or" == op || "xor" == op {
        2
    } else if "and" == op {
        3
    } else {
        relation_tightness(op)
    }
}

/// That of a term of an operator of arithmetic, or of a relation.
fn relation_tightness(op: &str) -> u8
    ensures value { result ≡ relation_tightness_of op.now }
    ensures most { result ≤ 7 }
{
    if "+" == op || "-" == op {
        6
    } else if "*" == op || "div" == op || "mod" == op {
        7
    } else {
        5
    }
}

/// What a binary operator of this tightness needs on its left.
pub(crate) fn left_tightness(own: u8) -> u8
    requires { own ≤ 7 }
    ensures { result ≡ spec.left_tightness own }
{
    if own == 1 || own == 5 { own + 1 } else { own }
}

/// What a binary operator of this tightness needs on its right. `implies` alone groups there.
pub(crate) fn right_tightness(own: u8) -> u8
    requires { own ≤ 7 }
    ensures { result ≡ spec.right_tightness own }
{
    if own == 1 { own } else { own + 1 }
}

/// That of a term of the operator `not` or `-`, which its operand needs too.
pub(crate) fn prefix_tightness(op: &str) -> u8
    ensures { result ≡ spec.prefix_tightness op.now }
{
    if "not" == op { 4 } else { 8 }
}
