//! Laws over the definitions alone: each function does nothing, but for citing a law below.
ghost use Rattle.asm_board.specs.Meanings.{Meanings};
ghost use Rattle.std.specs.Prelude.{List};
ghost use Rattle.asm_board.specs.declared.entry.Entry.{Entry};
ghost use Rattle.asm_board.specs.Boards.{board_of};
ghost use Rattle.asm_core.specs.Language.{asmeta};
ghost use Rattle.asm_core.specs.Wholes.{EachStateIsWellFormed};
ghost use Rattle.asm_core.specs.World.{WorldIsOrderly};

use asm_portable::what_is_read_is_a_value_of_the_domain;

/// Whatever the seats do, one atomic step after another, each is answered as by the one-thread
/// server.
pub fn world(room: u64)
    ensures { (meanings : Meanings) → WorldIsOrderly meanings room }
{
    let _ = room;
}

/// Each state that any journal leads to, and each earlier one that a model remembers, is well formed
/// for its program: each location is of a dynamic function, with arguments in its domains and a
/// value in its codomain, at the members that the state has, which are numbered from 0 on.
pub fn each_state_is_well_formed()
    ensures { (journal : List Entry) → EachStateIsWellFormed (board_of asmeta journal).slots }
{
    what_is_read_is_a_value_of_the_domain();
}
