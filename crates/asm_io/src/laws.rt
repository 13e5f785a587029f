//! Laws of lines: each function does nothing.

ghost use Rattle.std.specs.Prelude.{◌≡◌, ℕ, List, ◌∷◌, false};
ghost use Rattle.std.specs.List.{All};
ghost use Rattle.asm_io.specs.Lines.{first_piece, later_pieces, joined, has_feed};

/// The pieces of some bytes, with a line feed between each two, are the bytes, and no piece holds a
/// line feed: lines lose nothing but these.
pub fn pieces_lose_nothing()
    ensures whole { (bytes : List ℕ) → joined (first_piece bytes) (later_pieces bytes) ≡ bytes }
    ensures unfed { (bytes : List ℕ) →
        All (λ piece. has_feed piece ≡ false) (first_piece bytes ∷ later_pieces bytes) }
{}
