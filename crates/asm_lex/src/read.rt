//! The tokens of a text.
ghost use Rattle.std.specs.Prelude.{◌≡◌, ◌≢◌, ◌≤◌, length, IfOk, IfErr, Ok, Err, List, ℕ, All, AllPairs};
ghost use Rattle.asm_syntax.specs.declared.token.Token.{Token as Tokens};
ghost use Rattle.asm_syntax.specs.Lexes.{At, Stop, Lexes};
ghost use Rattle.asm_lex_theory.specs.Scan.{lexed_from};
ghost use Rattle.asm_lex.specs.declared.LexRefusal.{LexRefusal as Refusal};
ghost use Rattle.asm_syntax.specs.Texts.{most_bytes};
ghost use Rattle.asm_lex.specs.Answers.{IsRefusalOf, Gives, AreTokens, IsFirst, IsRefusal, Answers, HasNoTokens};
ghost use Rattle.asm_lex.specs.Spans.{IsTokenIn, Before, IsWithin};

use crate::LexRefusal;
use crate::front::front;
use asm_lex_theory::Front;
use asm_syntax::{List, Span, Token, TokenRefusal};
use std::alloc::Global;

/// The most bytes of a text.
const MOST_BYTES: usize = 262_144;

/// The refusal of a text whose reading stops at this offset.
fn refusal(why: TokenRefusal, at: u32) -> LexRefusal
    ensures { IsRefusalOf result (At why at) }
{
    match why {
        TokenRefusal::OpenComment => LexRefusal::OpenComment(at),
        TokenRefusal::OpenString => LexRefusal::OpenString(at),
        TokenRefusal::NumberTooLarge => LexRefusal::NumberTooLarge(at),
        TokenRefusal::BadByte => LexRefusal::BadByte(at),
    }
}

/// The tokens of a text that is not too long.
fn read(alloc: Global, text: &str) -> Result<List<Token>, LexRefusal>
    requires { length text.now ≤ most_bytes }
    ensures { Gives result (lexed_from text.now 0 0) }
{
    let mut tokens = List::new(alloc);
    let mut at = 0;
    while at < text.len() {
        match front(alloc, text, at)? {
            Front::Gap(len) => at += len,
            Front::Taken(kind, len) => {
                let span = Span {
                    start: at as u32,
                    end: (at + len) as u32,
                };
                tokens.push(Token { kind, span })?;
                at += len;
            }
            Front::Refusal(why) => return Err(refusal(why, at as u32)),
        }
    }
    Ok(tokens)
}

/// The tokens of a text, in text order, or its first refusal. Blanks and comments leave no token.
/// Each token is the longest that begins where it does. Spans and the offsets of refusals count bytes
/// from the text's start.
pub fn lex(alloc: Global, text: &str) -> Result<List<Token>, LexRefusal>
    // what is answered is so
    ensures tokens { IfOk result (λ tokens. AreTokens text.now tokens) }
    ensures refused { IfErr result (λ e. IsRefusal text.now e) }

    // what is so is answered, unless memory runs out
    ensures only { (tokens : List Tokens) → AreTokens text.now tokens → Answers result (Ok tokens) }
    ensures first { (tokens : List Tokens) (e : Refusal) → IsFirst text.now tokens e → Answers result (Err e) }
    ensures none { IfErr result (λ e. e ≢ LexRefusal.NoMemory → HasNoTokens text.now) }

    // where it is
    ensures spans { IfOk result (λ tokens. All (IsTokenIn text.now) tokens) }
    ensures ascending { IfOk result (λ tokens. AllPairs Before tokens) }
    ensures within { IfErr result (λ e. IsWithin text.now e) }
{
    if text.len() > MOST_BYTES {
        return Err(LexRefusal::TextTooLong(text.len()));
    }
    read(alloc, text)
}

/// A text is read in one way: it has one list of tokens or one first refusal, and never both.
pub fn one_reading()
    ensures { (text : List ℕ) (ts us : List Tokens) (s t : Stop) → Lexes 0 text ts s → Lexes 0 text us t → (ts ≡ us) × (s ≡ t) }
{}
