//! Terms and rules with numbers for their names.
//!
//! A function, a macro rule and a declared domain go by their numbers: their positions among those
//! of the text, from 0. A variable goes by its position among the variables in scope, the outermost
//! being 0. The variants are in the order of the grammar.
use crate::outcome::Span;
use asm_tables::Operation;
use asm_value::{Boxed, Domain, List, Value};

/// A term.
#[cycle(terms)]
#[derive(Drop)]
pub enum Term {
    /// An operator and its operands. Without an operation it is one that is only admitted, since
    /// the type of an operand is that of `undef`: then it has no value.
    Operator {
        operation: Option<Operation>,
        args: List<Boxed<Term>>,
        span: Span,
    },
    /// The right term is evaluated where the left isn't false.
    And {
        left: Boxed<Term>,
        right: Boxed<Term>,
    },
    /// The right term is evaluated where the left isn't true.
    Or {
        left: Boxed<Term>,
        right: Boxed<Term>,
    },
    /// `(not left) or right`.
    Implies {
        left: Boxed<Term>,
        right: Boxed<Term>,
    },
    /// A literal, a constant, or `undef`: the same in each state.
    Constant(Value),
    Variable(usize),
    /// The value of a dynamic function's location.
    Read {
        function: u16,
        args: List<Boxed<Term>>,
    },
    /// A function that is defined by a term.
    Call {
        function: u16,
        args: List<Boxed<Term>>,
    },
    Tuple {
        items: List<Boxed<Term>>,
        span: Span,
    },
    /// Whether the body is true at each combination of members of the domains.
    Forall {
        ranges: List<Domain>,
        body: Boxed<Term>,
    },
    /// Whether it is true at one or more of them.
    Exist {
        ranges: List<Domain>,
        body: Boxed<Term>,
    },
    /// Whether it is true at one of them alone.
    ExistUnique {
        ranges: List<Domain>,
        body: Boxed<Term>,
    },
    /// The set of the integers from one to another.
    Interval {
        from: Boxed<Term>,
        to: Boxed<Term>,
        span: Span,
    },
    Set {
        items: List<Boxed<Term>>,
        span: Span,
    },
    Seq {
        items: List<Boxed<Term>>,
        span: Span,
    },
    If {
        guard: Boxed<Term>,
        then: Boxed<Term>,
        other: Option<Boxed<Term>>,
    },
    /// The values of new variables, of which each sees those before it, and the body.
    Let {
        values: List<Boxed<Term>>,
        body: Boxed<Term>,
    },
    /// The term of the first case with this value, or the other one.
    Switch {
        value: Boxed<Term>,
        cases: List<Case>,
        other: Option<Boxed<Term>>,
    },
}

/// A case of a term: what is compared, and what it gives.
#[cycle(terms)]
#[derive(Drop)]
pub struct Case {
    pub value: Boxed<Term>,
    pub term: Boxed<Term>,
}

/// A rule.
#[cycle(rules)]
#[derive(Drop)]
pub enum Rule {
    /// Nothing is done.
    Skip,
    /// A macro rule with values for its parameters.
    Call {
        rule: u16,
        args: List<Boxed<Term>>,
    },
    /// The function's location gets the value that the term has before the step.
    Update {
        function: u16,
        args: List<Boxed<Term>>,
        value: Boxed<Term>,
        span: Span,
    },
    /// All parts at once, each in the same state.
    Par {
        parts: List<Boxed<Rule>>,
        span: Span,
    },
    /// One part after the other, each in the state that those before it lead to.
    Seq {
        parts: List<Boxed<Rule>>,
        span: Span,
    },
    If {
        guard: Boxed<Term>,
        then: Boxed<Rule>,
        other: Option<Boxed<Rule>>,
    },
    /// The body for each combination of members of the domains at which the guard is true.
    Forall {
        ranges: List<Domain>,
        guard: Option<Boxed<Term>>,
        body: Boxed<Rule>,
        span: Span,
    },
    /// The body for one of these combinations, or the other rule where there is none. `place` is
    /// the number of `choose` words before this one in the text.
    Choose {
        ranges: List<Domain>,
        guard: Option<Boxed<Term>>,
        body: Boxed<Rule>,
        other: Option<Boxed<Rule>>,
        place: usize,
    },
    /// The values of new variables, of which each sees those before it, and the body.
    Let {
        values: List<Boxed<Term>>,
        body: Boxed<Rule>,
    },
    /// The rule of the first case with this value, or the other one.
    Switch {
        value: Boxed<Term>,
        cases: List<RuleCase>,
        other: Option<Boxed<Rule>>,
    },
    /// So many new members of the abstract domain, each the value of a new variable, and the body.
    Extend {
        domain: u16,
        count: usize,
        body: Boxed<Rule>,
        span: Span,
    },
}

/// A case of a rule: what is compared, and the rule.
#[cycle(rules)]
#[derive(Drop)]
pub struct RuleCase {
    pub value: Boxed<Term>,
    pub rule: Boxed<Rule>,
}
