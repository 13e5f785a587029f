//! A text of which nothing is refused has its program. The function does nothing.
ghost use Rattle.asm_types.specs.Assembled.{UnrefusedHaveAProgram};

/// A tree of which nothing is refused has its program: its parts are as few as those of a program,
/// and no function and no macro rule of it reaches itself.
pub fn an_unrefused_text_has_a_program()
    ensures { UnrefusedHaveAProgram }
{}
