//! Byte offsets of a text with their lines and columns.
use asm_syntax::{LineColumn, place};

/// Each text and offset with its line and column.
const PLACES: [(&str, u32, LineColumn); 8] = [
    ("", 0, LineColumn { line: 1, column: 1 }),
    ("ab", 0, LineColumn { line: 1, column: 1 }),
    ("ab", 2, LineColumn { line: 1, column: 3 }),
    ("a\nb", 1, LineColumn { line: 1, column: 2 }),
    ("a\nb", 2, LineColumn { line: 2, column: 1 }),
    ("a\n\n", 3, LineColumn { line: 3, column: 1 }),
    ("\r\nx", 1, LineColumn { line: 1, column: 2 }),
    ("éx", 2, LineColumn { line: 1, column: 3 }),
];

fn has_place(text: &str, at: u32, want: LineColumn) -> bool {
    if at as usize > text.len() || at > 262_144 {
        return false;
    }
    place(text, at) == want
}

fn have_places() -> bool {
    for (text, at, want) in &PLACES {
        if !has_place(text, *at, *want) {
            return false;
        }
    }
    true
}

#[test]
fn lines_and_columns_count_from_one(rt: HostRuntime) {
    assert!(rt; have_places());
}
