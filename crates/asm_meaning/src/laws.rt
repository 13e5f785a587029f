//! Which tree and which program a text has, or which term alone, and what is reported of one
//! without: the functions give what the relations say.
ghost use Rattle.std.specs.Prelude.{◌≡◌, ◌↔◌, ℕ, List, Option, Ok, Err};
ghost use Rattle.asm_value.specs.declared.domain.Domain.{Domain};
ghost use Rattle.asm_syntax.specs.declared.tree.ModelTree.{ModelTree};
ghost use Rattle.asm_syntax.specs.declared.tree.TermTree.{TermTree};
ghost use Rattle.asm_syntax.specs.Texts.{IsModel, IsTerm};
ghost use Rattle.asm_program.specs.declared.program.Program.{Program};
ghost use Rattle.asm_program.specs.declared.bad_text.BadText.{BadText};
ghost use Rattle.asm_program.specs.declared.checked.CheckedTerm.{CheckedTerm};
ghost use Rattle.asm_meaning.specs.Texts.{tree_of, IsProgram, IsBadText, HasOneMeaning, meaning_of_text};
ghost use Rattle.asm_meaning.specs.Terms as terms;
ghost use Rattle.asm_meaning.specs.Terms.{term_tree_of, IsTypedText, IsBadTerm, meaning_of_term};

/// The tree of a text is the one that the grammar spells by its tokens.
pub fn a_text_has_its_tree()
    ensures { (text : List ℕ) (tree : ModelTree) → (tree_of text ≡ Ok tree) ↔ IsModel text tree }
{}

/// The program of a text is that of its tree.
pub fn a_text_has_its_program()
    ensures { (text : List ℕ) (program : Program) →
        (meaning_of_text text ≡ Ok program) ↔ IsProgram text program }
{}

/// Of a text without a program its first refusal is reported.
pub fn a_bad_text_is_reported()
    ensures { (text : List ℕ) (why : BadText) →
        (meaning_of_text text ≡ Err why) ↔ IsBadText text why }
{}

/// Each text has exactly one of a program and a refusal that is reported of it, and no second
/// program or refusal.
pub fn each_text_has_one_meaning()
    ensures { (text : List ℕ) → HasOneMeaning text }
{}

// ---- terms alone

/// The tree of a term's text is the one that the grammar spells by its tokens.
pub fn a_text_has_its_term_tree()
    ensures { (text : List ℕ) (tree : TermTree) → (term_tree_of text ≡ Ok tree) ↔ IsTerm text tree }
{}

/// The term of a text over what a program declares is that of its tree, of the domain that is
/// wanted, if one is.
pub fn a_text_has_its_term()
    ensures { (program : Program) (wanted : Option Domain) (text : List ℕ) (term : CheckedTerm) →
        (meaning_of_term program wanted text ≡ Ok term) ↔ IsTypedText program wanted text term }
{}

/// Of a text without a term its first refusal is reported.
pub fn a_bad_term_is_reported()
    ensures { (program : Program) (wanted : Option Domain) (text : List ℕ) (why : BadText) →
        (meaning_of_term program wanted text ≡ Err why) ↔ IsBadTerm program wanted text why }
{}

/// Over each program each text has exactly one of a term and a refusal that is reported of it, and
/// no second term or refusal.
pub fn each_term_has_one_meaning()
    ensures { (program : Program) (wanted : Option Domain) (text : List ℕ) →
        terms.HasOneMeaning program wanted text }
{}
