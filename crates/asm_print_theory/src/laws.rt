//! Canonical text is read as the tree that it is of.
ghost use Rattle.std.specs.Prelude.{◌≤◌, ℕ, List, length};
ghost use Rattle.asm_syntax.specs.declared.tree.TermTree.{TermTree};
ghost use Rattle.asm_syntax.specs.declared.tree.ModelTree.{ModelTree};
ghost use Rattle.asm_syntax.specs.Texts.{most_bytes, IsTerm, IsModel};
ghost use Rattle.asm_syntax.specs.Canonical.{canonical_term, canonical};
ghost use Rattle.asm_print_theory.specs.Again.{TermReadsBack, ModelReadsBack};

/// The canonical text of a term that some text has is read as the same term, apart from spans,
/// where it is no longer than a text may be.
pub fn a_canonical_term_is_read_again()
    ensures { (text : List ℕ) (term : TermTree) → IsTerm text term
        → length (canonical_term term) ≤ most_bytes → TermReadsBack term }
{}

/// The canonical text of a model that some text has is read as the same model, apart from spans,
/// where it is no longer than a text may be.
pub fn a_canonical_model_is_read_again()
    ensures { (text : List ℕ) (model : ModelTree) → IsModel text model
        → length (canonical model) ≤ most_bytes → ModelReadsBack model }
{}
