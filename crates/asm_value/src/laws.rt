//! Laws of firing, of clashes, of orders and of sizes. Those of firing tie the definitions in
//! `specs/State.antt` to what Börger and Stärk's Abstract State Machines (2003), chapter 2, says of
//! them. Each function does nothing.
ghost use Rattle.std.specs.Prelude.{◌≡◌, ◌≤◌, ◌↔◌, ℕ, true, false, List, Some, length};
ghost use Rattle.std.specs.declared.cmp.Ordering.TheVariants.{Equal};
ghost use Rattle.std.specs.List.{list_any};
ghost use Rattle.std.specs.Ordering.{eq_by_cmp};
ghost use Rattle.asm_value.specs.declared.value.Value.{Value};
ghost use Rattle.asm_value.specs.declared.location.Location.{Location};
ghost use Rattle.asm_value.specs.declared.location.Update.{Update};
ghost use Rattle.asm_value.specs.declared.domain.Domain.{Domain};
ghost use Rattle.asm_value.specs.declared.domain.DomainInfo.{DomainInfo};
ghost use Rattle.asm_value.specs.declared.domain.Live.{Live};
ghost use Rattle.asm_value.specs.Value.{compare};
ghost use Rattle.asm_value.specs.Location.{location_cmp, update_cmp};
ghost use Rattle.asm_value.specs.UpdateSet.{UpdateSet, has, empty};
ghost use Rattle.asm_value.specs.State.{StateMap, value_at, fire, fire_all, updates_at, overlaid};
ghost use Rattle.asm_value.specs.State.{IsConsistent, AreConsistent, IsClash};
ghost use Rattle.asm_value.specs.Members.{AreListed, members};
ghost use Rattle.asm_value.specs.Enumerable.{size, each_abstract, has_256, has_at_most_256};

/// Firing no update leaves every state as it is: `A + ∅` is `A`.
pub fn firing_nothing_changes_nothing()
    ensures { (state : StateMap) → fire state empty ≡ state }
{}

/// In `A + U` each update of a consistent set U has left its value at its location, and every
/// location that no update of U is of has the value that it has in A.
pub fn firing_writes_its_updates_alone()
    ensures written { (state : StateMap) (set : UpdateSet) (u : Update) →
        IsConsistent set → has set u ≡ true → value_at (fire state set) u.location ≡ u.value }
    ensures others { (state : StateMap) (set : UpdateSet) (l : Location) →
        updates_at set l ≡ false → value_at (fire state set) l ≡ value_at state l }
{}

/// The same of a consistent list of updates, in which an update may occur more than once.
pub fn firing_a_list_writes_its_updates_alone()
    ensures written { (state : StateMap) (list : List Update) (u : Update) → AreConsistent list →
        list_any (eq_by_cmp update_cmp u) list ≡ true →
        value_at (fire_all state list) u.location ≡ u.value }
    ensures others { (state : StateMap) (list : List Update) (l : Location) →
        list_any (λ u. eq_by_cmp location_cmp l u.location) list ≡ false →
        value_at (fire_all state list) l ≡ value_at state l }
{}

/// To fire U and then V is to fire `U ⊕ V`, which is consistent where both are: `(A + U) + V` is
/// `A + (U ⊕ V)`.
pub fn firing_one_after_another_is_firing_the_overlay()
    ensures same { (state : StateMap) (first later : UpdateSet) →
        IsConsistent first → IsConsistent later →
        fire (fire state first) later ≡ fire state (overlaid first later) }
    ensures consistent { (first later : UpdateSet) → IsConsistent first → IsConsistent later →
        IsConsistent (overlaid first later) }
{}

/// A set of updates has at most one clash: the least location with two values and its two least
/// values are determined.
pub fn there_is_at_most_one_clash()
    ensures { (set : UpdateSet) (l m : Location) (v w x y : Value) →
        IsClash set l v w → IsClash set m x y → (l ≡ m) × (v ≡ x) × (w ≡ y) }
{}

/// In the orders of values, of locations and of updates only equal ones tie.
pub fn only_equal_values_tie()
    ensures values { (v w : Value) → (compare v w ≡ Equal) ↔ (v ≡ w) }
    ensures locations { (l m : Location) → (location_cmp l m ≡ Equal) ↔ (l ≡ m) }
    ensures updates { (u v : Update) → (update_cmp u v ≡ Equal) ↔ (u ≡ v) }
{}

/// The size of an enumerable domain is the number of its members where each abstract domain that it
/// is built of has 256; where these have no more than 256, the members are no more than the size.
pub fn the_size_of_a_domain_is_the_number_of_its_members()
    ensures exactly { (domains : List DomainInfo) (live : Live) (d : Domain) (n : ℕ) →
        AreListed domains live → each_abstract (has_256 live) d ≡ true →
        size domains d ≡ Some n → length (members domains live d) ≡ n }
    ensures at_most { (domains : List DomainInfo) (live : Live) (d : Domain) (n : ℕ) →
        each_abstract (has_at_most_256 live) d ≡ true →
        size domains d ≡ Some n → length (members domains live d) ≤ n }
{}
