//! What the next token begins, and the signs between the ends of a range.
ghost use Rattle.std.specs.Prelude.{◌≡◌};
ghost use Rattle.asm_grammar.specs.Parser.{sees, expect};
ghost use Rattle.asm_syntax.specs.Forms.{is_range_sign};
ghost use Rattle.asm_parse_cursor.specs.Reads.{Lends};
ghost use Rattle.asm_parse_theory.specs.Firsts.{starts_plain, starts_term, starts_quantifier};
ghost use Rattle.asm_parse_prims.specs.Starts.{starts_form};

use asm_parse_cursor::{GrammarRefusal, Tokens};
use asm_syntax::Token;

/// Whether a term begins with the next token. Takes no token.
#[tactic(auto, using(crate::proofs::Starts::term_either))]
pub fn starts_term(tokens: &Tokens<'_>) -> bool
    ensures { result ≡ sees starts_term tokens.now }
{
    tokens.sees_word("not") || tokens.sees_sign("-") || starts_plain(tokens) || starts_form(tokens)
}

/// Whether the next token is a name, a bracket or a word that opens a term.
fn starts_form(tokens: &Tokens<'_>) -> bool
    ensures { result ≡ sees starts_form tokens.now }
{
    tokens.sees_id()
        || tokens.sees_sign("(")
        || tokens.sees_sign("{")
        || tokens.sees_sign("[")
        || tokens.sees_word("if")
        || tokens.sees_word("let")
        || tokens.sees_word("switch")
}

/// Whether a constant or a variable begins with the next token.
pub(crate) fn starts_plain(tokens: &Tokens<'_>) -> bool
    ensures { result ≡ sees starts_plain tokens.now }
{
    tokens.sees_number()
        || tokens.sees_chars()
        || tokens.sees_word("true")
        || tokens.sees_word("false")
        || tokens.sees_word("undef")
        || tokens.sees_variable()
}

/// Whether a quantifier begins with the next token.
pub(crate) fn starts_quantifier(tokens: &Tokens<'_>) -> bool
    ensures { result ≡ sees starts_quantifier tokens.now }
{
    tokens.sees_word("forall") || tokens.sees_word("exist")
}

/// Whether the next token is `..` or `:`.
pub(crate) fn is_range_sign(tokens: &Tokens<'_>) -> bool
    ensures { result ≡ sees is_range_sign tokens.now }
{
    tokens.sees_sign("..") || tokens.sees_sign(":")
}

/// ".." | ":"
pub(crate) fn range_sign<'a>(tokens: &mut Tokens<'a>) -> Result<&'a Token, GrammarRefusal>
    ensures { Lends (expect is_range_sign tokens.old) result tokens.new }
{
    if tokens.sees_sign("..") {
        tokens.expect_sign("..")
    } else {
        tokens.expect_sign(":")
    }
}
