//! Answers, and their text.
ghost use Rattle.std.specs.Prelude.{◌≡◌, ℕ, List, ◌∷◌, ◌++◌, drop, IfOk, OnOk};
ghost use Rattle.asm_portable.specs.Json.{json_text};
ghost use Rattle.asm_portable.specs.Ports.{fields as fields_tree};
ghost use Rattle.asm_board.specs.Replies.{body_fields, reply_of, reply_port, tail_of};

use crate::refusal::Refusal;
use asm_portable::{Field, Port, port_text, push_field};
use asm_value::{List, Text};
use std::alloc::{AllocError, Global};

/// What an answer says.
#[derive(Debug, Drop)]
pub enum Body {
    Ok(Port),
    No(Refusal),
}

/// A reply: the number of entries after which it is given, what it says, and its JSON text after
/// that number and the comma after it.
#[derive(Debug, Drop)]
pub struct Reply {
    pub at: u64,
    pub body: Body,
    pub tail: Text,
}

/// The text after its first brace, where it begins with one.
fn behind_brace(text: &str) -> &str
    ensures { (rest : List ℕ) → text.now ≡ 123 ∷ rest → result.now ≡ rest }
{
    match text.strip_prefix('{') {
        Some(rest) => rest,
        None => text,
    }
}

/// The JSON text of the fields after its first brace.
fn text_behind(alloc: Global, fields: List<Field>) -> Result<Text, AllocError>
    ensures { IfOk result (λ tail. tail ≡ drop 1 (json_text (fields_tree fields))) }
{
    let text = port_text(alloc, &Port::Fields(fields))?;
    Text::from_str(alloc, behind_brace(text.as_str()))
}

impl Body {
    /// Puts the fields of its reply, besides the number, after the fields.
    fn push_fields(&self, alloc: Global, fields: &mut List<Field>) -> Result<(), AllocError>
        ensures { OnOk result (fields.new ≡ fields.old ++ body_fields self.now) }
    {
        match self {
            Body::Ok(tree) => push_field(alloc, fields, "ok", tree.copy(alloc)?),
            Body::No(refusal) => refusal.push_fields(alloc, fields),
        }
    }

    /// The JSON text of its reply after the number and the comma after it.
    pub fn tail(&self, alloc: Global) -> Result<Text, AllocError>
        ensures { IfOk result (λ tail. tail ≡ tail_of self.now) }
    {
        let mut fields = List::new(alloc);
        self.push_fields(alloc, &mut fields)?;
        text_behind(alloc, fields)
    }

    /// The reply that tells it after this many entries, as a tree.
    pub fn reply_port(&self, alloc: Global, at: u64) -> Result<Port, AllocError>
        ensures { IfOk result (λ port. port ≡ reply_port at self.now) }
    {
        let mut fields = List::new(alloc);
        push_field(alloc, &mut fields, "at", Port::from_number(at))?;
        self.push_fields(alloc, &mut fields)?;
        Ok(Port::Fields(fields))
    }
}

impl Reply {
    /// The reply that tells a body after this many entries.
    pub fn new(alloc: Global, at: u64, body: Body) -> Result<Reply, AllocError>
        ensures { IfOk result (λ reply. reply ≡ reply_of at body) }
    {
        let tail = body.tail(alloc)?;
        Ok(Reply { at, body, tail })
    }
}
