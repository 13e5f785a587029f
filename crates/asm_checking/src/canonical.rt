//! The canonical text of a text's model.
ghost use Rattle.std.specs.Prelude.{◌≡◌, ◌≢◌, [], IfOk};
ghost use Rattle.asm_checking.specs.Canonicals as spec;

use asm_parse::{ParseRefusal, parse_model};
use asm_print::print_model;
use asm_value::Text;
use std::alloc::{AllocError, Global};

/// The empty text, unless memory ran out.
fn nothing(alloc: Global, why: &ParseRefusal) -> Result<Text, AllocError>
    ensures some { IfOk result (λ text. why.now ≢ ParseRefusal.NoMemory) }
    ensures empty { IfOk result (λ text. text ≡ []) }
{
    match why {
        ParseRefusal::NoMemory => Err(AllocError),
        ParseRefusal::Lex(_)
        | ParseRefusal::Syntax(_)
        | ParseRefusal::Unsupported(_, _)
        | ParseRefusal::TooDeep(_) => Ok(Text::new(alloc)),
    }
}

/// The canonical text of the model that a text has: its tokens, one space between two of them, and
/// a line for each declaration and definition. It is empty where the text has no model. `AllocError`
/// is want of memory.
pub fn canonical_of(alloc: Global, text: &str) -> Result<Text, AllocError>
    ensures { IfOk result (λ canonical. canonical ≡ spec.canonical_of text.now) }
{
    match parse_model(alloc, text) {
        Ok(tree) => print_model(alloc, &tree),
        Err(why) => nothing(alloc, &why),
    }
}
