//! Requests and replies: lines as calls, and replies as lines.
#![tactic(auto)]

mod fields;
mod inputs;
mod laws;
mod refusal;
mod reply;
mod request;
mod words;

pub use laws::{a_line_asks_for_one_thing, a_reply_is_an_object, a_reply_is_one_line};
pub use refusal::WireRefusal;
pub use reply::{put_no_memory, put_reply, refusal_reply};
pub use request::read_request;
