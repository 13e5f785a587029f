//! What definitions reach by calls. Each function does nothing.
ghost use Rattle.asm_program.specs.Calls.{CallGraph};
ghost use Rattle.asm_calls.specs.Orders.{NoneRecursive, Ranks, ReachesByFew, reached};
ghost use Rattle.asm_calls.specs.TextLaws.{CallsNamed, NoneRefused};
ghost use Rattle.asm_calls.specs.TextLaws.{TextFunctionsAreRanked, TextMacrosAreRanked};
ghost use Rattle.asm_calls.specs.Nested.{FunctionsAreRanked, MacrosAreRanked};

/// A definition that reaches another does so by no more calls than there are definitions.
#[tactic(auto, using(crate::proofs::Reaching::by_few))]
pub fn a_definition_reaches_by_few_calls()
    ensures { (graph : CallGraph) → ReachesByFew graph }
{}

/// Where no definition reaches itself, the number of those that each one reaches is below how many
/// there are, and falls along each call.
#[tactic(auto, using(crate::proofs::Reaching::reached_ranks))]
pub fn what_is_reached_falls_along_calls()
    ensures { (graph : CallGraph) → NoneRecursive graph → Ranks graph (reached graph) }
{}

/// Where no definition reaches itself, no function whose calls lie in the graph of the definitions
/// does.
pub fn functions_of_definitions_are_ranked()
    ensures { FunctionsAreRanked }
{}

/// The same of macro rules.
pub fn macros_of_definitions_are_ranked()
    ensures { MacrosAreRanked }
{}

/// A definition of a text calls each function and macro rule that one of its items names.
pub fn a_definition_calls_what_it_names()
    ensures { CallsNamed }
{}

/// Where no call of a text is refused, none of its definitions reaches itself.
#[tactic(auto, using(crate::proofs::CallLaws::none_refused_none))]
pub fn no_recursion_where_no_call_is_refused()
    ensures { NoneRefused }
{}

/// Where no call of a text is refused, no function that is made of it reaches itself: so the calls
/// of functions nest no deeper than there are functions.
pub fn functions_of_a_text_are_ranked()
    ensures { TextFunctionsAreRanked }
{}

/// The same of macro rules.
pub fn macros_of_a_text_are_ranked()
    ensures { TextMacrosAreRanked }
{}
