//! A text that grows word by word.
ghost use Rattle.std.specs.Prelude.{◌≡◌, [], ◌∷◌, ◌++◌, codes, OnOk, if◌then◌else◌};
ghost use Rattle.asm_syntax.specs.Written.{word_of};
ghost use Rattle.asm_print_terms.specs.Lines.{IsBlank, text_of, with_word, with_words, ended};

use asm_syntax::{Text, Token, TokenKind};
use std::alloc::{AllocError, Global};

/// A text that grows by words, with one space between two words of a line. After `AllocError`, want
/// of memory, it may have a part of the word.
#[derive(Drop)]
pub struct Writer {
    alloc: Global,
    text: Text,
    /// Whether the text's last line has a word.
    has_begun: bool,
}

impl Writer {
    /// The empty text. Takes no memory.
    #[tactic(auto, unfolding(crate::specs::Lines::IsBlank))]
    pub fn new(alloc: Global) -> Writer
        ensures { IsBlank result }
    {
        Writer {
            alloc,
            text: Text::new(alloc),
            has_begun: false,
        }
    }

    /// Begins a word.
    #[tactic(auto, unfolding(crate::specs::Lines::with_word))]
    fn begin(&mut self) -> Result<(), AllocError>
        ensures { OnOk result (self.new ≡ with_word self.old []) }
    {
        if self.has_begun {
            self.text.push_str(" ")?;
        }
        self.has_begun = true;
        Ok(())
    }

    /// Adds a word.
    #[tactic(auto, unfolding(crate::specs::Lines::with_word))]
    pub fn put(&mut self, word: &str) -> Result<(), AllocError>
        ensures { OnOk result (self.new ≡ with_word self.old word.now) }
    {
        self.begin()?;
        self.text.push_str(word)
    }

    /// Adds a word of which the first bytes and the last are given apart.
    #[tactic(auto, unfolding(crate::specs::Lines::with_word))]
    fn put_around(&mut self, first: &str, word: &str, last: &str) -> Result<(), AllocError>
        ensures { OnOk result (self.new ≡ with_word self.old (first.now ++ word.now ++ last.now)) }
    {
        self.put(first)?;
        self.text.push_str(word)?;
        self.text.push_str(last)
    }

    /// Adds a word and `(`.
    pub fn open(&mut self, word: &str) -> Result<(), AllocError>
        ensures { OnOk result (self.new ≡ with_word (with_word self.old word.now) (codes "(")) }
    {
        self.put(word)?;
        self.put("(")
    }

    /// Adds the word if it is wanted.
    pub fn put_if(&mut self, is_wanted: bool, word: &str) -> Result<(), AllocError>
        ensures { OnOk result
            (self.new ≡ with_words self.old (if is_wanted then word.now ∷ [] else [])) }
    {
        if is_wanted { self.put(word) } else { Ok(()) }
    }

    /// Adds a token as it is in a text: a number without leading zeros, a variable with its `$`, a
    /// string between its quotes.
    pub fn put_token(&mut self, token: &Token) -> Result<(), AllocError>
        ensures { OnOk result (self.new ≡ with_word self.old (word_of token.now)) }
    {
        match &token.kind {
            TokenKind::Id(name) => self.put(name.as_str()),
            TokenKind::Var(name) => self.put_around("$", name.as_str(), ""),
            TokenKind::Number(number) => {
                let digits = number.to_string(self.alloc)?;
                self.put(digits.as_str())
            }
            TokenKind::Chars(name) => self.put_around("\"", name.as_str(), "\""),
            TokenKind::Keyword(name) => self.put(name.as_str()),
            TokenKind::Refused(name) => self.put(name.as_str()),
            TokenKind::Symbol(name) => self.put(name.as_str()),
        }
    }

    /// Ends the line.
    #[tactic(auto, unfolding(crate::specs::Lines::ended))]
    pub fn end_line(&mut self) -> Result<(), AllocError>
        ensures { OnOk result (self.new ≡ ended self.old) }
    {
        self.text.push_str("\n")?;
        self.has_begun = false;
        Ok(())
    }

    /// The text. Takes no memory.
    #[tactic(auto, unfolding(crate::specs::Lines::text_of))]
    pub fn into_text(self) -> Text
        ensures { result ≡ text_of self }
    {
        let Writer { text, .. } = self;
        text
    }
}
