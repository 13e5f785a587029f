//! Laws of values and their trees: each function does nothing.
ghost use Rattle.std.specs.Prelude.{◌≡◌, ◌↔◌, ◌⊎◌, ℕ, ℤ, true, List, Ok, Some};
ghost use Rattle.std.specs.Fmt.{signed_decimal};
ghost use Rattle.asm_value.specs.declared.value.Value.{Value};
ghost use Rattle.asm_value.specs.declared.value.Value.TheVariants.{Member};
ghost use Rattle.asm_value.specs.declared.domain.Domain.{Domain};
ghost use Rattle.asm_value.specs.declared.domain.Domain.TheVariants.{Enum, Abstract, Power};
ghost use Rattle.asm_value.specs.declared.domain.DomainInfo.{DomainInfo};
ghost use Rattle.asm_value.specs.declared.domain.Live.{Live};
ghost use Rattle.asm_value.specs.Domain.{fits};
ghost use Rattle.asm_value.specs.Proper.{IsProper};
ghost use Rattle.asm_operations.specs.Sets.{has};
ghost use Rattle.asm_portable.specs.declared.port.Port.{Port};
ghost use Rattle.asm_portable.specs.declared.port.Port.TheVariants as ports;
ghost use Rattle.asm_portable.specs.Naming.{TellsApart, HasIntegers, KeepsLimits};
ghost use Rattle.asm_portable.specs.Values.{port_of, member_name};
ghost use Rattle.asm_portable.specs.Reading.{items_read, value_of, integer_of, is_integer};

/// The tree of a value is read back as the value, in each domain that it fits: of values whose sets
/// ascend, that keep the limits, where names tell members apart.
pub fn a_value_is_read_back_from_its_tree()
    ensures { (domains : List DomainInfo) (live : Live) (domain : Domain) (value : Value) →
        TellsApart domains live → fits domains live domain value ≡ true → IsProper value →
        HasIntegers value → KeepsLimits value →
        value_of domains live domain (port_of domains value) ≡ Ok value }
{}

/// What a tree is read as is a value of the domain; its sets ascend without repeats, whatever the
/// order of the items was and however often they came; and it keeps the limits. So a tree that
/// stands for no value is read as none.
pub fn what_is_read_is_a_value_of_the_domain()
    ensures fits { (domains : List DomainInfo) (live : Live) (domain : Domain) (tree : Port)
        (value : Value) → value_of domains live domain tree ≡ Ok value →
        fits domains live domain value ≡ true }
    ensures proper { (domains : List DomainInfo) (live : Live) (domain : Domain) (tree : Port)
        (value : Value) → value_of domains live domain tree ≡ Ok value → IsProper value }
    ensures limits { (domains : List DomainInfo) (live : Live) (domain : Domain) (tree : Port)
        (value : Value) → value_of domains live domain tree ≡ Ok value → KeepsLimits value }

    // and it is read again from the tree that is written for it
    ensures again { (domains : List DomainInfo) (live : Live) (domain : Domain) (tree : Port)
        (value : Value) → TellsApart domains live →
        value_of domains live domain tree ≡ Ok value → HasIntegers value →
        value_of domains live domain (port_of domains value) ≡ Ok value }
{}

/// An integer is read from a number, or from just the digits that write it: without leading zeros,
/// without a plus, and with a minus only before a negative one; from digits only if it has 128 bits.
pub fn an_integer_is_read_from_its_own_digits()
    ensures { (tree : Port) (n : ℤ) → (integer_of tree ≡ Some n) ↔ ((tree ≡ ports.Int n)
        ⊎ ((tree ≡ ports.Text (signed_decimal n)) × (is_integer n ≡ true))) }
{}

/// A literal and a member are read from their own name alone: `D!3` from no tree where the fourth
/// member of D is a constant.
pub fn a_member_is_read_from_its_own_name()
    ensures literals { (domains : List DomainInfo) (live : Live) (d e i : ℕ) (tree : Port) →
        value_of domains live (Enum d) tree ≡ Ok (Member e i) →
        (e ≡ d) × (tree ≡ ports.Text (member_name domains d i)) }
    ensures members { (domains : List DomainInfo) (live : Live) (d e i : ℕ) (tree : Port) →
        value_of domains live (Abstract d) tree ≡ Ok (Member e i) →
        (e ≡ d) × (tree ≡ ports.Text (member_name domains d i)) }
{}

/// A set is read from its items in any order and with any repeats: two lists of trees whose values
/// are the same items stand for one value, or both for none.
pub fn a_set_is_read_in_any_order()
    ensures { (domains : List DomainInfo) (live : Live) (domain : Domain) (trees others : List Port)
        (items more : List Value) →
        items_read (value_of domains live domain) 0 trees ≡ Ok items →
        items_read (value_of domains live domain) 0 others ≡ Ok more →
        ((value : Value) → has items value ≡ has more value) →
        value_of domains live (Power domain) (ports.List trees)
        ≡ value_of domains live (Power domain) (ports.List others) }
{}
