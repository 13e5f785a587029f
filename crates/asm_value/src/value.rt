//! Values, their total order, their weights and copies of them.
ghost use Rattle.std.specs.Prelude.{◌≡◌, ◌+◌, ◌-◌, ◌^◌, min, sum_by, IfOk, Some, refl};
ghost use Rattle.std.specs.Cmp.{eq_by_cmp_equiv, partial_equiv_from_equiv, partial_order_from_total};
ghost use Rattle.std.specs.Cmp.Lexicographic.{slice_cmp};
ghost use Rattle.std.specs.Ordering.{eq_by_cmp, as_partial_cmp};
ghost use Rattle.asm_value.specs.declared.value.Value.TheVariants.{Undef};
ghost use Rattle.asm_value.specs.Value as spec;
ghost use Rattle.asm_value.specs.Value.{compare, whole_weight};
ghost use Rattle.asm_value.specs.State.{is_undef};
ghost use Rattle.asm_value.specs.TotalOrders.{compare_total};

use asm_base::{List, Text};
use std::alloc::{AllocError, Global};
use std::cmp::Ordering;

/// A value, an element of a state's superuniverse. The order is total: by kind in the order of the
/// variants, then by content. It and the weights are this project's own.
#[derive(Debug, Drop)]
pub enum Value {
    /// The value of each location that has no other. It is in no tuple, sequence or set.
    Undef,
    /// A truth value; false comes before true.
    Truth(bool),
    /// An integer.
    Int(i128),
    /// A string; strings are ordered by their bytes, a prefix first.
    Chars(Text),
    /// A member of a declared domain: the domain's number in text order, and the number of its
    /// literal or of its member. Members are ordered by domain, then by index.
    Member { domain: u16, index: u16 },
    /// A tuple; lists of values are ordered item by item, a prefix first.
    Tuple(List<Value>),
    /// A finite sequence.
    Seq(List<Value>),
    /// A finite set: its items, ascending and without repeats.
    Set(List<Value>),
}

#[tactic(auto, using(crate::proofs::ValueLaws::value_steps))]
impl Value {
    /// The weight in units: a string 1 and 1 more for each whole 32 bytes; a tuple, a sequence or a
    /// set 1 and its items; all else 1. 2^64 - 1 means that and more. Takes no memory.
    #[cycle(weight)]
    pub fn weight(&self) -> u64
        ensures { result ≡ spec.weight self.now }
    {
        match self {
            Value::Chars(text) => text.weight(),
            Value::Tuple(items) | Value::Seq(items) | Value::Set(items) => {
                one_and_all(items.as_slice())
            }
            Value::Undef | Value::Truth(_) | Value::Int(_) | Value::Member { .. } => 1,
        }
    }

    /// An equal value in memory of its own. `AllocError` is want of memory.
    #[cycle(copy)]
    pub fn copy(&self, alloc: Global) -> Result<Value, AllocError>
        ensures { IfOk result (λ v. v ≡ self.now) }
    {
        match self {
            Value::Undef => Ok(Value::Undef),
            Value::Truth(truth) => Ok(Value::Truth(*truth)),
            Value::Int(number) => Ok(Value::Int(*number)),
            Value::Chars(text) => Ok(Value::Chars(text.copy(alloc)?)),
            Value::Member { domain, index } => Ok(Value::Member {
                domain: *domain,
                index: *index,
            }),
            Value::Tuple(items) => Ok(Value::Tuple(copy_all(alloc, items.as_slice())?)),
            Value::Seq(items) => Ok(Value::Seq(copy_all(alloc, items.as_slice())?)),
            Value::Set(items) => Ok(Value::Set(copy_all(alloc, items.as_slice())?)),
        }
    }

    fn kind(&self) -> u8
        ensures { result ≡ spec.kind_of self.now }
    {
        match self {
            Value::Undef => 0,
            Value::Truth(_) => 1,
            Value::Int(_) => 2,
            Value::Chars(_) => 3,
            Value::Member { .. } => 4,
            Value::Tuple(_) => 5,
            Value::Seq(_) => 6,
            Value::Set(_) => 7,
        }
    }

    /// False is 0 and true is 1, and a member goes by its domain.
    fn number(&self) -> i128
        ensures { result ≡ spec.number_of self.now }
    {
        match self {
            Value::Truth(truth) => i128::from(*truth),
            Value::Int(number) => *number,
            Value::Member { domain, index: _ } => i128::from(*domain),
            Value::Undef | Value::Chars(_) | Value::Tuple(_) | Value::Seq(_) | Value::Set(_) => 0,
        }
    }

    fn index(&self) -> u16
        ensures { result ≡ spec.index_of self.now }
    {
        match self {
            Value::Member { domain: _, index } => *index,
            Value::Undef
            | Value::Truth(_)
            | Value::Int(_)
            | Value::Chars(_)
            | Value::Tuple(_)
            | Value::Seq(_)
            | Value::Set(_) => 0,
        }
    }

    fn bytes(&self) -> &[u8]
        ensures { result.now ≡ spec.bytes_of self.now }
    {
        match self {
            Value::Chars(text) => text.as_str().as_bytes(),
            Value::Undef
            | Value::Truth(_)
            | Value::Int(_)
            | Value::Member { .. }
            | Value::Tuple(_)
            | Value::Seq(_)
            | Value::Set(_) => &[],
        }
    }

    /// Whether the value is undef.
    pub fn is_undef(&self) -> bool
        ensures { result ≡ is_undef self.now }
    {
        self.compare(&Value::Undef).is_eq()
    }

    /// Whether the value is a truth value.
    pub fn is_truth(&self) -> bool
        ensures { result ≡ spec.is_truth self.now }
    {
        match self {
            Value::Truth(_) => true,
            Value::Undef
            | Value::Int(_)
            | Value::Chars(_)
            | Value::Member { .. }
            | Value::Tuple(_)
            | Value::Seq(_)
            | Value::Set(_) => false,
        }
    }

    /// Whether the value is a string.
    pub fn is_chars(&self) -> bool
        ensures { result ≡ spec.is_chars self.now }
    {
        match self {
            Value::Chars(_) => true,
            Value::Undef
            | Value::Truth(_)
            | Value::Int(_)
            | Value::Member { .. }
            | Value::Tuple(_)
            | Value::Seq(_)
            | Value::Set(_) => false,
        }
    }

    /// The truth of a truth value; None of any other kind.
    pub fn as_truth(&self) -> Option<bool>
        ensures { result ≡ spec.as_truth self.now }
    {
        match self {
            Value::Truth(truth) => Some(*truth),
            Value::Undef
            | Value::Int(_)
            | Value::Chars(_)
            | Value::Member { .. }
            | Value::Tuple(_)
            | Value::Seq(_)
            | Value::Set(_) => None,
        }
    }

    /// The number of an integer; None of any other kind.
    pub fn as_int(&self) -> Option<i128>
        ensures { result ≡ spec.as_int self.now }
    {
        match self {
            Value::Int(number) => Some(*number),
            Value::Undef
            | Value::Truth(_)
            | Value::Chars(_)
            | Value::Member { .. }
            | Value::Tuple(_)
            | Value::Seq(_)
            | Value::Set(_) => None,
        }
    }

    /// The domain and the index of a member; None of any other kind.
    pub fn as_member(&self) -> Option<(u16, u16)>
        ensures { result ≡ spec.as_member self.now }
    {
        match self {
            Value::Member { domain, index } => Some((*domain, *index)),
            Value::Undef
            | Value::Truth(_)
            | Value::Int(_)
            | Value::Chars(_)
            | Value::Tuple(_)
            | Value::Seq(_)
            | Value::Set(_) => None,
        }
    }

    /// The items of a tuple, a sequence or a set in their order; none of any other kind.
    pub fn parts(&self) -> &[Value]
        ensures { result.now ≡ spec.parts self.now }
    {
        match self {
            Value::Tuple(items) | Value::Seq(items) | Value::Set(items) => items.as_slice(),
            Value::Undef
            | Value::Truth(_)
            | Value::Int(_)
            | Value::Chars(_)
            | Value::Member { .. } => &[],
        }
    }

    fn compare_head(&self, other: &Value) -> Ordering
        ensures { result ≡ spec.compare_head self.now other.now }
    {
        self.kind()
            .cmp(&other.kind())
            .then(self.number().cmp(&other.number()))
            .then(self.index().cmp(&other.index()))
            .then(self.bytes().cmp(&other.bytes()))
    }

    /// The order of values: Equal exactly for equal ones. Takes no memory.
    #[cycle(compare)]
    pub fn compare(&self, other: &Value) -> Ordering
        ensures { result ≡ compare self.now other.now }
    {
        match self.compare_head(other) {
            Ordering::Equal => match self {
                Value::Tuple(items) | Value::Seq(items) | Value::Set(items) => {
                    compare_all(items.as_slice(), other.parts())
                }
                Value::Undef
                | Value::Truth(_)
                | Value::Int(_)
                | Value::Chars(_)
                | Value::Member { .. } => compare_all(&[], other.parts()),
            },
            unequal => unequal,
        }
    }
}

/// The weight of a list: 1 and its items. 2^64 - 1 means that and more.
#[cycle(weight)]
pub fn one_and_all(items: &[Value]) -> u64
    ensures { result ≡ min (1 + sum_by whole_weight items.now) (2 ^ 64 - 1) }
{
    let mut total = 1u64;
    for item in items {
        total = total.saturating_add(item.weight());
    }
    total
}

/// Equal values, in their order, as a list of their own. `AllocError` is want of memory.
#[cycle(copy)]
pub fn copy_all(alloc: Global, items: &[Value]) -> Result<List<Value>, AllocError>
    ensures { IfOk result (λ all. all ≡ items.now) }
{
    let mut all = List::new(alloc);
    for item in items {
        all.push(item.copy(alloc)?)?;
    }
    Ok(all)
}

/// The order of lists of values: item by item, a prefix first. Takes no memory.
#[cycle(compare)]
pub fn compare_all(items: &[Value], others: &[Value]) -> Ordering
    ensures { result ≡ slice_cmp compare items.now others.now }
{
    for at in 0..items.len() {
        if at >= others.len() {
            return Ordering::Greater;
        }
        match items[at].compare(&others[at]) {
            Ordering::Equal => {}
            unequal => return unequal,
        }
    }
    if items.len() < others.len() {
        Ordering::Less
    } else {
        Ordering::Equal
    }
}

impl Default for Value {
    ghost is_default = { λ v. v ≡ Undef };

    fn default() -> Value {
        Value::Undef
    }
}

impl PartialEq for Value {
    ghost eq = { eq_by_cmp compare };

    ghost laws = { partial_equiv_from_equiv (eq_by_cmp_equiv compare_total) };

    fn eq(&self, other: &Value) -> bool {
        self.compare(other).is_eq()
    }
}

impl Eq for Value {
    ghost laws = { eq_by_cmp_equiv compare_total };
}

impl PartialOrd for Value {
    ghost partial_cmp = { as_partial_cmp compare };

    ghost laws = { partial_order_from_total compare_total };

    fn partial_cmp(&self, other: &Value) -> Option<Ordering> {
        Some(self.compare(other))
    }
}

impl Ord for Value {
    ghost cmp = { compare };

    ghost total = { compare_total };

    ghost matches_partial_cmp = { λ _ _. refl };

    ghost matches_eq = { λ _ _. refl };

    fn cmp(&self, other: &Value) -> Ordering {
        self.compare(other)
    }
}
