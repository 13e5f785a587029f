//! The language's operators, one row for each name with each listing of kinds.
ghost use Rattle.std.specs.Prelude.{◌≡◌};
ghost use Rattle.asm_tables.specs.Names.{text_of};

use crate::table::{CaseTable, Kind, Kinds, Row};

/// The names of the operators, with what each is in a text.
#[derive(Clone, Copy, PartialEq, Eq)]
pub enum OperatorName {
    /// `+`
    Plus,
    /// `-`
    Minus,
    /// `*`
    Times,
    /// `div`
    Div,
    /// `mod`
    Mod,
    /// `abs`
    Abs,
    /// `min`
    Min,
    /// `max`
    Max,
    /// `<`
    Less,
    /// `<=`
    AtMost,
    /// `>`
    Greater,
    /// `>=`
    AtLeast,
    /// `not`
    Not,
    /// `xor`
    Xor,
    /// `iff`
    Iff,
    /// `in`
    In,
    /// `notin`
    NotIn,
    /// `concat`
    Concat,
    /// `length`
    Length,
    /// `toString`
    ToString,
    /// `first`
    First,
    /// `last`
    Last,
    /// `tail`
    Tail,
    /// `at`
    At,
    /// `append`
    Append,
    /// `prepend`
    Prepend,
    /// `isEmpty`
    IsEmpty,
    /// `asSet`
    AsSet,
    /// `asSequence`
    AsSequence,
    /// `size`
    Size,
    /// `union`
    Union,
    /// `intersection`
    Intersection,
    /// `difference`
    Difference,
    /// `including`
    Including,
    /// `excluding`
    Excluding,
    /// `subset`
    Subset,
    /// `second`
    Second,
    /// `third`
    Third,
    /// `=`
    Equal,
    /// `!=`
    NotEqual,
    /// `isDef`
    IsDef,
    /// `isUndef`
    IsUndef,
}

/// The operators' names as they are written, in the order of `OperatorName`.
const NAMES: [&str; 42] = [
    "+",
    "-",
    "*",
    "div",
    "mod",
    "abs",
    "min",
    "max",
    "<",
    "<=",
    ">",
    ">=",
    "not",
    "xor",
    "iff",
    "in",
    "notin",
    "concat",
    "length",
    "toString",
    "first",
    "last",
    "tail",
    "at",
    "append",
    "prepend",
    "isEmpty",
    "asSet",
    "asSequence",
    "size",
    "union",
    "intersection",
    "difference",
    "including",
    "excluding",
    "subset",
    "second",
    "third",
    "=",
    "!=",
    "isDef",
    "isUndef",
];

impl OperatorName {
    /// The name as it is written.
    pub fn text(self) -> &'static str
        ensures { result.now ≡ text_of self }
    {
        NAMES[self as usize]
    }
}

/// The type of an operator's result, and which types have to join. Each rule that speaks of items
/// is one of sequences or sets.
#[derive(Clone, Copy, PartialEq, Eq)]
pub enum ResultRule {
    /// A truth value.
    Truth,
    /// A truth value; the types of the two arguments have to join.
    TruthOfJoin,
    /// A truth value; the type of the left argument has to join with that of the right one's items.
    TruthOfItem,
    /// An integer.
    Int,
    /// A string.
    Chars,
    /// The type of the argument.
    Argument,
    /// The type of the items of the first argument.
    Item,
    /// The join of the types of the two arguments.
    Join,
    /// The type of the second argument, where that of its items is joined with the first one's.
    JoinFirst,
    /// The type of the first argument, where that of its items is joined with the second one's.
    JoinLast,
    /// Sets of what are the items of the argument.
    SetOfItems,
    /// Sequences of what are the items of the argument.
    SeqOfItems,
    /// The type of the tuple's first part.
    FirstPart,
    /// The type of the tuple's second part, which has to be there.
    SecondPart,
    /// The type of the tuple's third part, which has to be there.
    ThirdPart,
}

/// What a row computes. Every operation but `Equal`, `NotEqual`, `IsDef` and `IsUndef` is undef
/// where an argument is. A result of more than 256 items, or of a weight above 4,096, is
/// ValueTooLarge.
#[derive(Clone, Copy, PartialEq, Eq)]
pub enum Operation {
    /// The sum; Overflow outside the integers' range.
    Add,
    /// The difference; Overflow outside the range.
    Subtract,
    /// The product; Overflow outside the range.
    Multiply,
    /// The quotient rounded down; undef where the divisor is 0; Overflow outside the range.
    Divide,
    /// What the quotient rounded down leaves, 0 or with the divisor's sign; undef where the divisor
    /// is 0.
    Remainder,
    /// The number with the other sign; Overflow outside the range.
    Negate,
    /// The number without its sign; Overflow outside the range.
    Abs,
    /// The lesser of the two.
    Min,
    /// The greater of the two.
    Max,
    /// Whether the left number is less.
    LessInt,
    /// Whether the left string comes first by its bytes.
    LessChars,
    /// Whether the left number is less or equal.
    AtMostInt,
    /// Whether the left string comes first by its bytes or is the same.
    AtMostChars,
    /// Whether the left number is greater.
    GreaterInt,
    /// Whether the left string comes last by its bytes.
    GreaterChars,
    /// Whether the left number is greater or equal.
    AtLeastInt,
    /// Whether the left string comes last by its bytes or is the same.
    AtLeastChars,
    /// The other truth value.
    Not,
    /// Whether the two differ.
    Xor,
    /// Whether the two are the same.
    Iff,
    /// Whether the left value is in the set.
    In,
    /// Whether the left value isn't in the set.
    NotIn,
    /// The left string and then the right; ValueTooLarge past 1,024 bytes.
    ConcatChars,
    /// The number of Unicode characters.
    CharsLength,
    /// The number in decimal digits.
    IntToChars,
    /// `true` or `false`.
    TruthToChars,
    /// The number of items.
    SeqLength,
    /// The first item; undef where there is none.
    FirstItem,
    /// The last item; undef where there is none.
    LastItem,
    /// All items but the first; undef where there is none.
    Tail,
    /// The item at a position from 0; undef where there is none.
    At,
    /// The items, and then the right value.
    Append,
    /// The left value, and then the items.
    Prepend,
    /// The items of the left, and then those of the right.
    ConcatSeqs,
    /// Whether there is no item.
    IsEmptySeq,
    /// Whether there is no item.
    IsEmptySet,
    /// The set of the items.
    AsSet,
    /// The items ascending.
    AsSeq,
    /// The number of items.
    Size,
    /// What is in either set.
    Union,
    /// What is in both sets.
    Intersection,
    /// What is in the left set alone.
    Difference,
    /// The set and the right value.
    Including,
    /// The set without the right value.
    Excluding,
    /// Whether all of the left set is in the right one.
    Subset,
    /// The first part.
    FirstPart,
    /// The second part.
    SecondPart,
    /// The third part.
    ThirdPart,
    /// Whether the two are the same value; undef is the same as undef alone. Never undef.
    Equal,
    /// Whether the two aren't the same value. Never undef.
    NotEqual,
    /// Whether there is a value. Never undef.
    IsDef,
    /// Whether there is no value. Never undef.
    IsUndef,
}

/// Hands each row, in order, to the macro `$each`: its operation, its name, the kinds of its
/// arguments and the rule of its result.
#[macro_export]
macro_rules! operator_rows {
    ($each:ident!($($with:tt)*)) => {
        $each! {
            ($($with)*)
            Add Plus Two(Int, Int) Int,
            Subtract Minus Two(Int, Int) Int,
            Multiply Times Two(Int, Int) Int,
            Divide Div Two(Int, Int) Int,
            Remainder Mod Two(Int, Int) Int,
            Negate Minus One(Int) Int,
            Abs Abs One(Int) Int,
            Min Min Two(Int, Int) Int,
            Max Max Two(Int, Int) Int,
            LessInt Less Two(Int, Int) Truth,
            LessChars Less Two(Chars, Chars) Truth,
            AtMostInt AtMost Two(Int, Int) Truth,
            AtMostChars AtMost Two(Chars, Chars) Truth,
            GreaterInt Greater Two(Int, Int) Truth,
            GreaterChars Greater Two(Chars, Chars) Truth,
            AtLeastInt AtLeast Two(Int, Int) Truth,
            AtLeastChars AtLeast Two(Chars, Chars) Truth,
            Not Not One(Truth) Truth,
            Xor Xor Two(Truth, Truth) Truth,
            Iff Iff Two(Truth, Truth) Truth,
            In In Two(Any, Set) TruthOfItem,
            NotIn NotIn Two(Any, Set) TruthOfItem,
            ConcatChars Concat Two(Chars, Chars) Chars,
            CharsLength Length One(Chars) Int,
            IntToChars ToString One(Int) Chars,
            TruthToChars ToString One(Truth) Chars,
            SeqLength Length One(Seq) Int,
            FirstItem First One(Seq) Item,
            LastItem Last One(Seq) Item,
            Tail Tail One(Seq) Argument,
            At At Two(Seq, Int) Item,
            Append Append Two(Seq, Any) JoinLast,
            Prepend Prepend Two(Any, Seq) JoinFirst,
            ConcatSeqs Concat Two(Seq, Seq) Join,
            IsEmptySeq IsEmpty One(Seq) Truth,
            IsEmptySet IsEmpty One(Set) Truth,
            AsSet AsSet One(Seq) SetOfItems,
            AsSeq AsSequence One(Set) SeqOfItems,
            Size Size One(Set) Int,
            Union Union Two(Set, Set) Join,
            Intersection Intersection Two(Set, Set) Join,
            Difference Difference Two(Set, Set) Join,
            Including Including Two(Set, Any) JoinLast,
            Excluding Excluding Two(Set, Any) JoinLast,
            Subset Subset Two(Set, Set) Truth,
            FirstPart First One(Tuple) FirstPart,
            SecondPart Second One(Tuple) SecondPart,
            ThirdPart Third One(Tuple) ThirdPart,
            Equal Equal Two(Any, Any) TruthOfJoin,
            NotEqual NotEqual Two(Any, Any) TruthOfJoin,
            IsDef IsDef One(Any) Truth,
            IsUndef IsUndef One(Any) Truth
        }
    };
}

macro_rules! table_of {
    (() $($operation:ident $name:ident $count:ident($($kind:ident),*) $rule:ident),*) => {
        [$(Row {
                name: OperatorName::$name,
                kinds: Kinds::$count($(Kind::$kind),*),
                result: ResultRule::$rule,
                operation: Operation::$operation,
        }),*]
    };
}

/// The rows of all operators. A row's number is its position in this list, from 0.
pub const OPERATORS: [Row; 52] = operator_rows!(table_of!());

/// The table of all operators.
pub fn operators() -> CaseTable<52>
    ensures { result.rows ≡ OPERATORS }
{
    let rows = &OPERATORS;
    CaseTable { rows: *rows }
}
