//! The checker and the relation of typing say the same. Each function does nothing.
ghost use Rattle.asm_syntax.specs.declared.tree.ModelTree.{ModelTree};
ghost use Rattle.asm_program.specs.declared.program.Program.{Program};
ghost use Rattle.asm_program.specs.TypedTerms.{Scope};
ghost use Rattle.asm_program.specs.TypedModels.{scope_of};
ghost use Rattle.asm_program.specs.TypedAlone.{scope_of_program};
ghost use Rattle.asm_program.specs.TypingLaws.{IsWhole, UnrefusedWhereTyped, TypesAreTold};
ghost use Rattle.asm_program.specs.TypingLaws.{TypesAreUnique, RulesUnrefusedWhereTyped};

/// What a text declares is a whole scope: each function and macro rule that it has the name of is
/// there. So is what a program declares.
#[tactic(auto, using(crate::proofs::WholeScopes::whole_scopes))]
pub fn scopes_are_whole()
    ensures of_text { (tree : ModelTree) → IsWhole (scope_of tree) }
    ensures of_program { (p : Program) → IsWhole (scope_of_program p) }
{}

/// Over a whole scope nothing is refused of a term exactly where it has a type. Over any scope the
/// checker tells this type.
#[tactic(auto, using(crate::proofs::TypesKept::typed_terms))]
pub fn a_term_is_unrefused_where_it_has_a_type()
    ensures where_typed { (scope : Scope) → IsWhole scope → UnrefusedWhereTyped scope }
    ensures told { (scope : Scope) → TypesAreTold scope }
{}

/// A term has at most one type.
#[tactic(auto, using(crate::proofs::TypesKept::types_are_unique))]
pub fn a_term_has_one_type()
    ensures { (scope : Scope) → TypesAreUnique scope }
{}

/// Over a whole scope nothing is refused of a rule exactly where it is typed.
#[tactic(auto, using(crate::proofs::RulesKept::rules_unrefused_where_typed))]
pub fn a_rule_is_unrefused_where_it_is_typed()
    ensures { (scope : Scope) → IsWhole scope → RulesUnrefusedWhereTyped scope }
{}
