//! The line that tells of a demo.
ghost use Rattle.std.specs.Prelude.{◌≡◌, ◌++◌, decimal, IfOk, OnOk};
ghost use Rattle.asm_demo.specs.Lines as spec;

use crate::run::Run;
use crate::sum::sum_shown;
use asm_value::Text;
use std::alloc::{AllocError, Global};

/// Puts a word and a number behind a line.
fn put_number(alloc: Global, line: &mut Text, word: &str, number: u64) -> Result<(), AllocError>
    ensures { OnOk result (line.new ≡ line.old ++ word.now ++ decimal number) }
{
    line.push_str(word)?;
    line.push_str(number.to_string(alloc)?.as_str())
}

/// The line of what was answered.
fn line_of(alloc: Global, size: u64, run: &Run) -> Result<Text, AllocError>
    ensures { IfOk result (λ line. line ≡ spec.line_of size run.now) }
{
    let mut line = Text::new(alloc);
    put_number(alloc, &mut line, "demo ", size)?;
    put_number(alloc, &mut line, ": entries ", run.one.front())?;
    put_number(alloc, &mut line, " refused ", run.refused)?;
    put_number(alloc, &mut line, " sum ", sum_shown(&run.shown))?;
    line.push_str("\n")?;
    Ok(line)
}

/// The line of the demo of this size, with its line feed: how many entries its server's journal has
/// after the calls, how many of them were refused, and the sum of the values that the last one
/// shows.
#[tactic(auto, unfolding(crate::specs::Lines::demo_line))]
pub fn demo_line(alloc: Global, size: u64) -> Result<Text, AllocError>
    ensures { IfOk result (λ line. line ≡ spec.demo_line size) }
{
    let run = Run::of(alloc, size)?;
    line_of(alloc, size, &run)
}
