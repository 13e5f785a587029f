//! Lines and columns of a text.
ghost use Rattle.std.specs.Prelude.{◌≡◌, ◌+◌, ◌≤◌, ◌==◌, not, length, take, count_by};
ghost use Rattle.std.specs.List.{suffix_len};
ghost use Rattle.asm_syntax.specs.Texts.{most_bytes};

/// A place as a reader counts it: both from 1.
#[derive(Clone, Copy, Debug, PartialEq, Eq)]
pub struct LineColumn {
    pub line: u32,
    pub column: u32,
}

/// The line and the column of a byte offset, which may be the text's end. A line ends with its line
/// feed. Columns count bytes, so a carriage return and each byte of a character count as one.
/// Takes no memory.
pub fn place(text: &str, at: u32) -> LineColumn
    requires within { at ≤ length text.now }
    requires most { at ≤ most_bytes }
    ensures line { result.line ≡ 1 + count_by (λ b. b == 10) (take at text.now) }
    ensures column { result.column ≡ 1 + suffix_len (λ b. not (b == 10)) (take at text.now) }
{
    let bytes = text.as_bytes();
    let mut line: u32 = 1;
    let mut column: u32 = 1;
    for i in 0..at as usize {
        if bytes[i] == b'\n' {
            line += 1;
            column = 1;
        } else {
            column += 1;
        }
    }
    LineColumn { line, column }
}

/// The byte offset, or the text's end where that comes before it. Takes no memory.
pub fn within(text: &str, at: u32) -> u32
    ensures length { result ≤ length text.now }
    ensures same { take result text.now ≡ take at text.now }
{
    if text.len() < at as usize {
        text.len() as u32
    } else {
        at
    }
}
