//! A model's text, written anew.
ghost use Rattle.std.specs.Prelude.{◌≡◌, ◌≢◌, IfOk, IfErr};
ghost use Rattle.asm_syntax.specs.declared.tree.ModelTree.{ModelTree as Tree};
ghost use Rattle.asm_syntax.specs.Texts.{IsModel};
ghost use Rattle.asm_syntax.specs.Canonical.{canonical};
ghost use Rattle.asm_print.specs.Again.{IsModelAgain};
ghost use Rattle.asm_parse.specs.declared.refusal.ParseRefusal.{ParseRefusal as Refusal};
ghost use Rattle.asm_parse.specs.Answers.{IsRead, IsModelCause, IsTold, IsWithin};
ghost use Rattle.asm_format.specs.Formatted.{IsFormatted, IsSame};

use asm_parse::{ParseRefusal, parse_model};
use asm_print::print_model;
use asm_syntax::{ModelTree, Text};
use std::alloc::Global;

/// The canonical text of the model that a text has, or the text's first refusal. Comments and
/// imports aren't kept.
pub fn format(alloc: Global, text: &str) -> Result<Text, ParseRefusal>
    // what is answered is so
    ensures formatted { IfOk result (IsFormatted text.now) }
    ensures same { IfOk result (IsSame text.now) }
    ensures cause { IfErr result (λ why. why ≢ ParseRefusal.NoMemory → IsModelCause text.now why) }

    // what is so is answered, unless memory runs out
    ensures only { (tree : Tree) → IsModel text.now tree → IsRead (canonical tree) result }
    ensures first { (why : Refusal) → IsModelCause text.now why → IsTold why result }

    // where it is
    ensures within { IfErr result (IsWithin text.now) }
{
    match parse_model(alloc, text) {
        Ok(tree) => printed(alloc, &tree),
        Err(why) => Err(why),
    }
}

/// The canonical text of a model. `NoMemory` alone is refused.
fn printed(alloc: Global, tree: &ModelTree) -> Result<Text, ParseRefusal>
    ensures text { IfOk result (λ text. text ≡ canonical tree.now) }
    ensures again { IfOk result (IsModelAgain tree.now) }
    ensures memory { IfErr result (λ why. why ≡ ParseRefusal.NoMemory) }
{
    match print_model(alloc, tree) {
        Ok(text) => Ok(text),
        Err(_error) => Err(ParseRefusal::NoMemory),
    }
}
