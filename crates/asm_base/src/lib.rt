//! Lists, texts, boxes and shared values that contracts see as the values that they hold.
#![tactic(auto)]

mod boxed;
mod list;
mod shared;
mod text;

pub use boxed::Boxed;
pub use list::List;
pub use shared::Shared;
pub use text::Text;
