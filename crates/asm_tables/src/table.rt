//! Tables of cases: rows, one of which a name and the kinds of some arguments choose.
ghost use Rattle.std.specs.Prelude.{◌≡◌, ◌≤◌, ℕ, IsTrue, IfSome, IsNone, ◌↔◌};
ghost use Rattle.asm_tables.specs.Table.{takes, all_taken, filled, all_filled, matches, admits, are_distinct, row_of, IsOnlyMatch, NoneMatches};

use crate::rows::{Operation, OperatorName, ResultRule};

/// The kind of an argument, or what a row asks for at an argument's position. A term has some kind
/// other than `Any`.
#[derive(Clone, Copy, PartialEq, Eq)]
pub enum Kind {
    /// A truth value.
    Truth,
    /// An integer, whichever numbers its domain allows.
    Int,
    /// A string.
    Chars,
    /// A literal of an enumeration or a member of an abstract domain.
    Member,
    /// A tuple.
    Tuple,
    /// A sequence.
    Seq,
    /// A set.
    Set,
    /// What has no value, as `undef`: the type that fits every other.
    Untyped,
    /// In a row: every kind, `Untyped` too.
    Any,
}

/// The kinds of the one or two arguments of a row.
#[derive(Clone, Copy)]
pub enum Kinds {
    /// One argument.
    One(Kind),
    /// Two arguments, from left to right.
    Two(Kind, Kind),
}

/// One case of an operator: its name with one listing of kinds.
#[derive(Clone, Copy)]
pub struct Row {
    /// The name, as it is written in a text.
    pub name: OperatorName,
    /// What the arguments have to be.
    pub kinds: Kinds,
    /// The type of the result, and which types have to join.
    pub result: ResultRule,
    /// What is computed.
    pub operation: Operation,
}

/// Rows, no two of which match one name with the same kinds. A row's number is its position, from
/// 0.
#[derive(Clone, Copy)]
pub struct CaseTable<const N: usize> {
    /// The rows in order.
    pub rows: [Row; N],
    ghost few: { N ≤ 256 },
    ghost distinct: { IsTrue (are_distinct rows) },
}

/// Whether a row that has the one kind at a position takes an argument of the other there.
fn takes(row: Kind, kind: Kind) -> bool
    ensures { result ≡ takes row kind }
{
    match row {
        Kind::Any => true,
        Kind::Truth => matches!(kind, Kind::Truth),
        Kind::Int => matches!(kind, Kind::Int),
        Kind::Chars => matches!(kind, Kind::Chars),
        Kind::Member => matches!(kind, Kind::Member),
        Kind::Tuple => matches!(kind, Kind::Tuple),
        Kind::Seq => matches!(kind, Kind::Seq),
        Kind::Set => matches!(kind, Kind::Set),
        Kind::Untyped => matches!(kind, Kind::Untyped),
    }
}

fn takes_all(row: Kinds, kinds: &[Kind]) -> bool
    ensures { result ≡ all_taken row kinds.now }
{
    match row {
        Kinds::One(first) => kinds.len() == 1 && takes(first, kinds[0]),
        Kinds::Two(first, second) => {
            kinds.len() == 2 && takes(first, kinds[0]) && takes(second, kinds[1])
        }
    }
}

/// Whether the argument's kind is the row's once what is untyped has the row's kind.
fn admits(row: Kind, kind: Kind) -> bool
    ensures { result ≡ takes row (filled row kind) }
{
    matches!(kind, Kind::Untyped) || takes(row, kind)
}

fn admits_all(row: Kinds, kinds: &[Kind]) -> bool
    ensures { result ≡ all_taken row (all_filled row kinds.now) }
{
    match row {
        Kinds::One(first) => kinds.len() == 1 && admits(first, kinds[0]),
        Kinds::Two(first, second) => {
            kinds.len() == 2 && admits(first, kinds[0]) && admits(second, kinds[1])
        }
    }
}

impl Row {
    /// Whether the row has this name, and these kinds or `Any` in their positions.
    fn matches(self, name: &str, kinds: &[Kind]) -> bool
        ensures { result ≡ matches name.now kinds.now self }
    {
        self.name.text() == name && takes_all(self.kinds, kinds)
    }

    /// Whether the row would match if each untyped argument had the row's kind at its position.
    fn admits(self, name: &str, kinds: &[Kind]) -> bool
        ensures { result ≡ matches name.now (all_filled self.kinds kinds.now) self }
    {
        self.name.text() == name && admits_all(self.kinds, kinds)
    }
}

impl<const N: usize> CaseTable<N> {
    /// The number of the row that matches the name with these kinds. Takes no memory.
    pub fn find(&self, name: &str, kinds: &[Kind]) -> Option<u8>
        ensures row { result ≡ row_of self.now.rows name.now kinds.now }
        ensures found { IfSome result (λ i. IsOnlyMatch self.now.rows name.now kinds.now i) }
        ensures none { IsNone result ↔ NoneMatches self.now.rows name.now kinds.now }
    {
        for at in 0..N {
            let row = self.rows[at];
            if row.matches(name, kinds) {
                return Some(at as u8);
            }
        }
        None
    }

    /// Whether some row would match the name if each `Untyped` among the kinds were that row's kind
    /// at its position. Takes no memory.
    pub fn admits(&self, name: &str, kinds: &[Kind]) -> bool
        ensures { result ≡ admits self.now.rows name.now kinds.now }
    {
        for row in &self.rows {
            if row.admits(name, kinds) {
                return true;
            }
        }
        false
    }
}
