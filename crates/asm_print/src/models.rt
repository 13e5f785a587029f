//! Models.
ghost use Rattle.std.specs.Prelude.{◌≡◌, [], ◌∷◌, codes, OnOk};
ghost use Rattle.asm_syntax.specs.Written.{word_of};
ghost use Rattle.asm_syntax.specs.Canonical.{init_lines, model_lines};
ghost use Rattle.asm_print_terms.specs.Lines.{with_line, with_lines};
ghost use Rattle.asm_print.specs.LineParts.{signature_lines, definitions_lines, main_words};

use crate::decls::put_decls;
use crate::defs::{put_defs, put_starts};
use crate::rules::put_led_rule;
use asm_print_terms::Writer;
use asm_syntax::{DeclTree, DefTree, InitTree, ModelTree, RuleTree, Token};
use std::alloc::AllocError;

/// A line of a word and `:`.
#[tactic(auto, using(asm_print_terms::proofs::Texts::line_steps))]
fn put_heading(out: &mut Writer, word: &str) -> Result<(), AllocError>
    ensures { OnOk result (out.new ≡ with_line out.old (word.now ∷ codes ":" ∷ [])) }
{
    out.put(word)?;
    out.put(":")?;
    out.end_line()
}

/// "asm" ID, and the declarations.
#[tactic(auto, using(crate::proofs::LineSteps::signature_steps))]
fn put_signature(out: &mut Writer, name: &Token, decls: &[DeclTree]) -> Result<(), AllocError>
    ensures { OnOk result (out.new ≡ with_lines out.old (signature_lines name.now decls.now)) }
{
    out.put("asm")?;
    out.put_token(name)?;
    out.end_line()?;
    put_heading(out, "signature")?;
    put_decls(out, decls)
}

#[tactic(auto, using(crate::proofs::LineSteps::definitions_steps))]
fn put_definitions(out: &mut Writer, defs: &[DefTree]) -> Result<(), AllocError>
    ensures { OnOk result (out.new ≡ with_lines out.old (definitions_lines defs.now)) }
{
    put_heading(out, "definitions")?;
    put_defs(out, defs)
}

/// "main" "rule" ID "=" rule
#[tactic(auto, using(crate::proofs::LineSteps::main_steps))]
fn put_main(out: &mut Writer, name: &Token, rule: &RuleTree) -> Result<(), AllocError>
    ensures { OnOk result (out.new ≡ with_line out.old (main_words name.now rule.now)) }
{
    out.put("main")?;
    out.put("rule")?;
    out.put_token(name)?;
    put_led_rule(out, "=", rule)?;
    out.end_line()
}

/// "default" "init" ID ":"
#[tactic(auto, using(asm_print_terms::proofs::Texts::line_steps))]
fn put_init_heading(out: &mut Writer, name: &Token) -> Result<(), AllocError>
    ensures { OnOk result (out.new ≡ with_line out.old
        (codes "default" ∷ codes "init" ∷ word_of name.now ∷ codes ":" ∷ [])) }
{
    out.put("default")?;
    out.put("init")?;
    out.put_token(name)?;
    out.put(":")?;
    out.end_line()
}

#[tactic(auto, using(crate::proofs::LineSteps::init_steps))]
fn put_init(out: &mut Writer, init: &Option<InitTree>) -> Result<(), AllocError>
    ensures { OnOk result (out.new ≡ with_lines out.old (init_lines init.now)) }
{
    match init {
        Some(init) => {
            put_init_heading(out, &init.name)?;
            put_starts(out, init.starts.as_slice())
        }
        None => Ok(()),
    }
}

/// A model, without its imports.
#[tactic(auto, using(crate::proofs::LineSteps::model_steps))]
pub(crate) fn put_model(out: &mut Writer, model: &ModelTree) -> Result<(), AllocError>
    ensures { OnOk result (out.new ≡ with_lines out.old (model_lines model.now)) }
{
    put_signature(out, &model.name, model.decls.as_slice())?;
    put_definitions(out, model.defs.as_slice())?;
    put_main(out, &model.rule_name, model.rule.get())?;
    put_init(out, &model.init)
}
