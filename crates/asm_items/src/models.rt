//! The items of a model.
ghost use Rattle.std.specs.Prelude.{◌≡◌, OnOk, IfOk};
ghost use Rattle.asm_program.specs.Items.{model_items};
ghost use Rattle.asm_items.specs.Views.{with_items};
ghost use Rattle.asm_items.specs.Parts as parts;

use crate::declarations::{counted, decls_items};
use crate::definitions::{body_items, defs_items};
use crate::item::Items;
use crate::rules::rule_items;
use asm_program::Limited;
use asm_syntax::{InitTree, ModelTree, StartTree};
use std::alloc::{AllocError, Global};

/// The items of initial terms.
#[tactic(auto, using(crate::proofs::ModelSteps::starts_steps))]
fn starts_items<'a>(items: &mut Items<'a>, starts: &'a [StartTree]) -> Result<(), AllocError>
    ensures { OnOk result (items.new ≡ with_items items.old (parts.starts_items starts.now)) }
{
    for start in starts {
        body_items(items, &start.params, start.term.get())?;
    }
    Ok(())
}

/// The items of an initial state, if there is one.
#[tactic(auto, using(crate::proofs::ModelSteps::init_steps))]
fn init_items<'a>(items: &mut Items<'a>, init: &'a Option<InitTree>) -> Result<(), AllocError>
    ensures { OnOk result (items.new ≡ with_items items.old (parts.init_items init.now)) }
{
    match init {
        None => Ok(()),
        Some(init) => starts_items(items, init.starts.as_slice()),
    }
}

/// Adds the items of a model.
#[tactic(auto, using(crate::proofs::ModelSteps::model_steps))]
fn add_model<'a>(items: &mut Items<'a>, tree: &'a ModelTree) -> Result<(), AllocError>
    ensures { OnOk result (items.new ≡ with_items items.old (parts.model tree.now)) }
{
    decls_items(items, tree.decls.as_slice())?;
    defs_items(items, tree.defs.as_slice())?;
    counted(items, Limited::Macros, &tree.rule_name, tree.main)?;
    rule_items(items, tree.rule.get())?;
    init_items(items, &tree.init)
}

/// The items of a model, in text order: time and memory go with the size of the tree.
#[tactic(auto, using(crate::proofs::ModelSteps::whole_steps))]
pub fn model_items<'a>(alloc: Global, tree: &'a ModelTree) -> Result<Items<'a>, AllocError>
    ensures { IfOk result (λ items. items ≡ model_items tree.now) }
{
    let mut items = Items::new(alloc);
    add_model(&mut items, tree)?;
    Ok(items)
}
