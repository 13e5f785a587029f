//! Which version of a prepared change is another now.
ghost use Rattle.std.specs.Prelude.{◌≡◌, option_map};
ghost use Rattle.asm_board.specs.Answers as answers;
ghost use Rattle.asm_book.specs.Versions.{stale_at};

use asm_board::{Board, NameVersion};

/// The first model whose version is another at a board. Takes no memory.
pub(crate) fn first_stale<'a>(versions: &'a [NameVersion], board: &Board) -> Option<&'a NameVersion>
    ensures { stale_at board.now (option_map (λ v. v.now) result)
        ≡ answers.first_stale versions.now board.now }
{
    for version in versions {
        if version.version != board.version(&version.name) {
            return Some(version);
        }
    }
    None
}
