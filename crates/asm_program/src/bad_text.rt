//! What is reported of a text that has no program.
use asm_value::Text;

/// What is reported of a text that has no program: its first refusal.
#[derive(Debug, Drop)]
pub struct BadText {
    /// The refusal's name.
    pub kind: Text,
    /// What the name alone doesn't say, such as a word; else empty.
    pub more: Text,
    /// The line of the refusal's place, from 1.
    pub line: u32,
    /// Its column in bytes, from 1.
    pub column: u32,
}
