//! What follows for the calls of a text in which nothing is refused. Each function does nothing.
ghost use Rattle.asm_typed_calls.specs.CalledNames.{FunctionsLie, MacrosLie, FunctionsRanked, MacrosRanked};

/// Each function that a function's term calls, and that has a term of its own, is called by the
/// definition of the first.
pub fn calls_of_functions_lie_in_the_graph()
    ensures { FunctionsLie }
{}

/// Each macro rule that a macro rule's body calls is called by the definition of the first.
pub fn calls_of_macros_lie_in_the_graph()
    ensures { MacrosLie }
{}

/// No function of a text without refusals reaches itself.
pub fn functions_of_an_unrefused_text_are_ranked()
    ensures { FunctionsRanked }
{}

/// No macro rule of a text without refusals reaches itself.
pub fn macros_of_an_unrefused_text_are_ranked()
    ensures { MacrosRanked }
{}
