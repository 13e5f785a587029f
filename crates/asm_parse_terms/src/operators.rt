//! The operators between two operands of a line.
ghost use Rattle.std.specs.Prelude.{◌≡◌};
ghost use Rattle.asm_grammar.specs.Parser.{sees, enter};
ghost use Rattle.asm_parse_cursor.specs.Reads.{Lends};
ghost use Rattle.asm_parse_terms.specs.Lines.{is_operator, right_of};

use asm_parse_cursor::{GrammarRefusal, Tokens};
use asm_parse_parts::Line;
use asm_syntax::Token;

/// The operators between two operands of a line.
#[derive(Clone, Copy)]
pub(crate) enum Operators {
    Product,
    Sum,
    Relation,
    And,
    Or,
    Implies,
    Iff,
}

impl Operators {
    /// The line of the right operand.
    pub(crate) fn right(self) -> Line
        ensures { result ≡ right_of self }
    {
        match self {
            Operators::Product => Line::Sign,
            Operators::Sum => Line::Prod,
            Operators::Relation => Line::Sum,
            Operators::And => Line::Neg,
            Operators::Or => Line::And,
            Operators::Implies => Line::Imp,
            Operators::Iff => Line::Imp,
        }
    }

    /// Whether the next token is one of them.
    pub(crate) fn are_next(self, tokens: &Tokens<'_>) -> bool
        ensures { result ≡ sees (is_operator self) tokens.now }
    {
        match self {
            Operators::Product => tokens.sees_one(&["*"], &["div", "mod"]),
            Operators::Sum => tokens.sees_one(&["+", "-"], &[]),
            Operators::Relation => {
                tokens.sees_one(&["=", "!=", "<", "<=", ">", ">="], &["in", "notin"])
            }
            Operators::And => tokens.sees_word("and"),
            Operators::Or => tokens.sees_one(&[], &["or", "xor"]),
            Operators::Implies => tokens.sees_word("implies"),
            Operators::Iff => tokens.sees_word("iff"),
        }
    }

    /// Takes one of them, which opens a construct, if one more may be open.
    pub(crate) fn enter<'a>(
        self,
        tokens: &mut Tokens<'a>,
        is_open: bool,
    ) -> Result<&'a Token, GrammarRefusal>
        ensures { Lends (enter is_open (is_operator self) tokens.old) result tokens.new }
    {
        match self {
            Operators::Product => tokens.enter_one(is_open, &["*"], &["div", "mod"]),
            Operators::Sum => tokens.enter_one(is_open, &["+", "-"], &[]),
            Operators::Relation => tokens.enter_one(
                is_open,
                &["=", "!=", "<", "<=", ">", ">="],
                &["in", "notin"],
            ),
            Operators::And => tokens.enter_word(is_open, "and"),
            Operators::Or => tokens.enter_one(is_open, &[], &["or", "xor"]),
            Operators::Implies => tokens.enter_word(is_open, "implies"),
            Operators::Iff => tokens.enter_word(is_open, "iff"),
        }
    }
}
