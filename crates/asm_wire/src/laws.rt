//! Laws of lines and replies: each function does nothing.
ghost use Rattle.std.specs.Prelude.{◌≡◌, ℕ, ◌<◌, ◌^◌, List, ◌∷◌, codes, false};
ghost use Rattle.asm_io.specs.Lines.{has_feed};
ghost use Rattle.asm_portable.specs.Json.{json_text};
ghost use Rattle.asm_portable.specs.Ports.{number, field, fields};
ghost use Rattle.asm_board.specs.declared.call.Call.{Call};
ghost use Rattle.asm_board.specs.declared.reply.Body.{Body};
ghost use Rattle.asm_board.specs.Refusals.{Tried};
ghost use Rattle.asm_board.specs.Replies.{body_fields, reply_of, reply_text};
ghost use Rattle.asm_wire.specs.Requests.{Asks};

/// A line asks for one thing.
pub fn a_line_asks_for_one_thing()
    ensures { (line : List ℕ) (a b : Tried Call) → Asks line a → Asks line b → a ≡ b }
{}

/// The text of a reply is the compact JSON of an object: its number at `at`, and then what it says,
/// its keys ascending.
pub fn a_reply_is_an_object()
    ensures { (at : ℕ) (body : Body) → at < 2 ^ 64 → reply_text (reply_of at body)
        ≡ json_text (fields (field (codes "at") (number at) ∷ body_fields body)) }
{}

/// The text of a reply is one line: it holds no line feed.
pub fn a_reply_is_one_line()
    ensures { (at : ℕ) (body : Body) → has_feed (reply_text (reply_of at body)) ≡ false }
{}
