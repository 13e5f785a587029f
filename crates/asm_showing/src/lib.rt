//! What a client is shown of models, of steps, and of why there are none.
#![tactic(auto)]

mod clashes;
mod entries;
mod faults;
mod offers;
mod reads;
mod refused;
mod shown;

pub use entries::log_shown;
pub use faults::broken;
pub use offers::{offer_of, steps_shown};
pub use reads::{text_shown, value_told};
pub use refused::content_after;
pub use shown::{models_shown, run_shown, state_shown};
