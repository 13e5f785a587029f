//! What each form of rule yields, and that it is what Börger and Stärk's Abstract State Machines
//! (2003), chapter 2, allow; and where no invariant is broken. Each function does nothing.
ghost use Rattle.std.specs.Prelude.{◌≡◌, ◌↔◌, ℕ, List, Option, None};
ghost use Rattle.asm_value.specs.State.{StateMap};
ghost use Rattle.asm_program.specs.declared.program.Inv.{Inv};
ghost use Rattle.asm_program.specs.declared.program.Program.{Program};
ghost use Rattle.asm_program.specs.BookYields.{YieldsAreOfTheBook, StepsAreOfTheBook};
ghost use Rattle.asm_program.specs.Invariants.{first_broken, AllHold};
ghost use Rattle.asm_program.specs.Numbered.{StartsNumbered, StepsLeaveNumbered};
ghost use Rattle.asm_program.specs.RuleLaws.{SkipYields, UpdateYields, UpdateYieldsAlone};
ghost use Rattle.asm_program.specs.RuleLaws.{ParYields, ParYieldsOfParts, IfYields, ForallYields};
ghost use Rattle.asm_program.specs.RuleLaws.{SeqYields, SeqStops, SeqSkips, AnyOrderYields};
ghost use Rattle.asm_program.specs.RuleLaws.{AnyOrderOfTheBook, NewMembersDiffer};
ghost use Rattle.asm_program.specs.RuleLaws.{NewMembersAreAdded, OnlyTruthIsTrue};

/// What a rule yields is one of the sets that the textbook's rules allow, with the new members that
/// it takes, where the next indexes are above those of all members that the step began with. So no
/// pick takes a choice that the book forbids, and no two parts take one member.
#[tactic(auto, using(crate::proofs::BookLaws::yields_are_of_the_book))]
pub fn what_a_rule_yields_is_of_the_book()
    ensures { (p : Program) → YieldsAreOfTheBook p }
{}

/// The same of a step, from a state in which the members of each domain are numbered from 0 on.
#[tactic(auto, using(crate::proofs::BookLaws::steps_are_of_the_book))]
pub fn what_a_step_yields_is_of_the_book()
    ensures { (p : Program) → StepsAreOfTheBook p }
{}

/// In the initial state the members of each domain are numbered from 0 on.
#[tactic(auto, using(crate::proofs::StartLaws::starts_numbered))]
pub fn the_initial_state_numbers_its_members()
    ensures { (p : Program) → StartsNumbered p }
{}

/// A step leaves the members of each domain numbered from 0 on, where each `extend` of the program
/// is of an abstract domain. So what any step of a run yields is of the book.
pub fn a_step_leaves_members_numbered()
    ensures { (p : Program) → StepsLeaveNumbered p }
{}

/// `skip` yields the empty set.
#[tactic(auto, using(crate::proofs::FormLaws::forms))]
pub fn skip_yields_nothing()
    ensures { (p : Program) (pick : Option ℕ) → SkipYields p pick }
{}

/// An update yields itself alone, with the values that its terms have before the step.
#[tactic(auto, using(crate::proofs::FormLaws::forms))]
pub fn an_update_yields_itself()
    ensures set { (p : Program) (pick : Option ℕ) → UpdateYields p pick }
    ensures alone { (p : Program) (pick : Option ℕ) → UpdateYieldsAlone p pick }
{}

/// A `par` yields the updates that its parts yield, each in the state before any of them is fired,
/// and no others. New members are handed out from the first part to the last.
#[tactic(auto, using(crate::proofs::FormLaws::forms))]
pub fn a_par_yields_the_union()
    ensures union { (p : Program) (pick : Option ℕ) → ParYields p pick }
    ensures of_parts { (p : Program) (pick : Option ℕ) → ParYieldsOfParts p pick }
{}

/// An `if` yields what one of its branches yields: `then` where the guard is true, and `other`
/// where it isn't, as where it is false or undef; nothing where there is no other branch.
#[tactic(auto, using(crate::proofs::FormLaws::forms))]
pub fn an_if_yields_a_branch()
    ensures { (p : Program) (pick : Option ℕ) → IfYields p pick }
{}

/// A `forall` yields the union of what its body yields at the combinations at which its guard is
/// true.
#[tactic(auto, using(crate::proofs::FormLaws::forms))]
pub fn a_forall_yields_the_union()
    ensures { (p : Program) (pick : Option ℕ) → ForallYields p pick }
{}

/// `P seq Q` yields `U ⊕ V`, where P yields the consistent set U in the state A, and Q yields V in
/// `A + U`.
#[tactic(auto, using(crate::proofs::FormLaws::forms))]
pub fn a_seq_yields_the_overlay()
    ensures { (p : Program) (pick : Option ℕ) → SeqYields p pick }
{}

/// A `seq` whose first part yields a set that clashes yields that set: no further part is looked
/// at.
#[tactic(auto, using(crate::proofs::FormLaws::forms))]
pub fn a_seq_stops_at_a_clash()
    ensures { (p : Program) (pick : Option ℕ) → SeqStops p pick }
{}

/// `skip` is neutral in a `seq`, wherever it stands.
#[tactic(auto, using(crate::proofs::OrderLaws::orders))]
pub fn skip_is_neutral_in_a_seq()
    ensures { (p : Program) (pick : Option ℕ) → SeqSkips p pick }
{}

/// The order of a `par`'s parts doesn't matter. Where each part yields a set and takes no new
/// member, what is yielded stays the same, also where the union is too heavy; of the textbook's
/// relation this holds of all parts, but that the list of new members is in another order.
#[tactic(auto, using(crate::proofs::OrderLaws::orders))]
pub fn a_par_has_no_order()
    ensures yielded { (p : Program) (pick : Option ℕ) → AnyOrderYields p pick }
    ensures of_the_book { (p : Program) → AnyOrderOfTheBook p }
{}

/// Two new members of one step differ, and the state in which it begins has neither.
#[tactic(auto, using(crate::proofs::NewMembers::new_members_differ))]
pub fn new_members_of_a_step_differ()
    ensures { (p : Program) → NewMembersDiffer p }
{}

/// Of the locations of domains, a step's updates write those of its new members alone, and these
/// become true.
#[tactic(auto, using(crate::proofs::AddedMembers::new_members_are_added))]
pub fn new_members_of_a_step_are_added()
    ensures { (p : Program) → NewMembersAreAdded p }
{}

/// One value alone is true: undef, numbers and all other values are not.
#[tactic(auto, using(crate::proofs::FormLaws::forms))]
pub fn only_the_truth_value_is_true()
    ensures { OnlyTruthIsTrue }
{}

/// None of the invariants is the first that is broken exactly where all of them hold.
pub fn none_is_broken_exactly_where_all_hold()
    ensures { (p : Program) (state : StateMap) (invs : List Inv) →
        (first_broken p state invs ≡ None) ↔ AllHold p state invs }
{}
