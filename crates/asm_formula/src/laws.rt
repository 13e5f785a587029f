//! The formula of a text is the one that the grammar spells by its tokens, and a text without one
//! has exactly the first refusal.
ghost use Rattle.std.specs.Prelude.{◌≡◌, ◌↔◌, ℕ, List, Ok, Err};
ghost use Rattle.asm_formula.specs.declared.formula.Formula.{Formula as Formulas};
ghost use Rattle.asm_formula.specs.declared.formula.FormulaRefusal.{FormulaRefusal as Refusals};
ghost use Rattle.asm_formula.specs.declared.token.Token.{Token as Tokens};
ghost use Rattle.asm_formula.specs.Grammar.{formula};
ghost use Rattle.asm_formula.specs.Reading.{formula_of};
ghost use Rattle.asm_formula.specs.Texts.{IsFormulaText, IsRefusedText, IsFrontOfFormula};
ghost use Rattle.asm_formula.specs.Texts.{HasFewNames};

/// What is read of a text is the formula that the grammar spells by its tokens, within the limits.
pub fn a_formula_is_read()
    ensures { (text : List ℕ) (f : Formulas) →
        (formula_of text ≡ Ok f) ↔ IsFormulaText text f }
{}

/// Of a text that is no formula its first refusal is told.
pub fn a_text_without_formula_is_refused()
    ensures { (text : List ℕ) (why : Refusals) →
        (formula_of text ≡ Err why) ↔ IsRefusedText text why }
{}

/// A formula that is read has at most 16 names, and none twice.
pub fn a_formula_has_few_names()
    ensures { (text : List ℕ) (f : Formulas) → formula_of text ≡ Ok f → HasFewNames f }
{}

/// What the grammar calls a beginning is the front of some formula, and so no token is refused that
/// a formula has after the tokens before it.
pub fn a_front_of_a_formula_begins_one()
    ensures { (front : List Tokens) → formula.Begins front ↔ IsFrontOfFormula front }
{}
