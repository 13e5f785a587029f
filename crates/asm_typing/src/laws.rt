//! Laws of types; each function does nothing.
ghost use Rattle.asm_typing.specs.Order.{FitsItself, FitsOnward, FitBothWays, BothFitTheJoin, TheJoinIsLeast, JoinsEitherWay, JoinsInAnyOrder, FitsWhatItJoinsTo, JoinsByParts, AllFitTheirJoin, TheirJoinIsLeast, IsTypeOfItsDomain, DomainsAreTyped};
ghost use Rattle.asm_typing.specs.Values.{UntypedHasNone, FitsWithItsValues, HasValuesOfItsDomain};
ghost use Rattle.asm_typing.specs.Examples.{TruthRow, TruthOfJoinRow, TruthOfItemRow, IntRow, CharsRow, ArgumentRow, ItemRow, JoinRow, JoinFirstRow, JoinLastRow, SetOfItemsRow, SeqOfItemsRow, FirstPartRow, SecondPartRow, ThirdPartRow, UntypedRows, JoinsOfThree};

/// `fits` is an order: each type fits itself, it fits what one that it fits fits, and two types
/// that fit each other are equal.
pub fn types_are_ordered()
    ensures itself { FitsItself }
    ensures onward { FitsOnward }
    ensures both_ways { FitBothWays }
{}

/// Both types fit their join, which fits each type that both fit; and where both fit some type,
/// they have a join.
pub fn a_join_is_the_least_that_both_fit()
    ensures both_fit { BothFitTheJoin }
    ensures least { TheJoinIsLeast }
{}

/// All types fit the join of all, which fits each type that all fit; and where all fit some type,
/// they have a join.
pub fn a_join_of_all_is_the_least_that_all_fit()
    ensures all_fit { AllFitTheirJoin }
    ensures least { TheirJoinIsLeast }
{}

/// It doesn't matter in which order types are joined.
pub fn joins_have_no_order()
    ensures either_way { JoinsEitherWay }
    ensures of_three { JoinsInAnyOrder }
{}

/// A type fits another exactly where the other is their join.
pub fn a_type_fits_what_it_joins_to()
    ensures { FitsWhatItJoinsTo }
{}

/// The join of two types part by part: what is untyped joins to the other, and all else to the
/// joins of its parts.
pub fn a_join_goes_by_parts()
    ensures { JoinsByParts }
{}

/// A type in which nothing is untyped is the type of its domain, and such is each domain's type.
pub fn a_type_is_that_of_its_domain()
    ensures of_its_domain { IsTypeOfItsDomain }
    ensures typed { DomainsAreTyped }
{}

/// Values have types: what is untyped has none; what fits a type has no values but that type's; and
/// a domain's type has all the domain's values.
pub fn types_have_values()
    ensures untyped { UntypedHasNone }
    ensures fitting { FitsWithItsValues }
    ensures of_domains { HasValuesOfItsDomain }
{}

/// What a row of each rule of results gives to arguments of some types, worked out by hand, and
/// what untyped arguments give.
pub fn each_rule_has_a_row()
    ensures truth { TruthRow }
    ensures truth_of_join { TruthOfJoinRow }
    ensures truth_of_item { TruthOfItemRow }
    ensures int { IntRow }
    ensures chars { CharsRow }
    ensures argument { ArgumentRow }
    ensures item { ItemRow }
    ensures join { JoinRow }
    ensures join_first { JoinFirstRow }
    ensures join_last { JoinLastRow }
    ensures set_of_items { SetOfItemsRow }
    ensures seq_of_items { SeqOfItemsRow }
    ensures first_part { FirstPartRow }
    ensures second_part { SecondPartRow }
    ensures third_part { ThirdPartRow }
    ensures untyped { UntypedRows }
{}

/// Three types of which each two with the first have a join, and that have none together.
pub fn three_types_have_no_join()
    ensures { JoinsOfThree }
{}
