//! Boards, calls and their answers: what each request means, as definitions with their laws, and
//! how what was prepared is settled. It evaluates no text and no rule.
#![tactic(auto)]

mod board;
mod call;
mod content;
mod entry;
mod laws;
mod names;
mod outcome;
mod prepared;
mod refusal;
mod reply;
mod request;
mod stepped;
mod stop;
mod trail;

pub use board::{Board, NamedSlot, Slot};
pub use call::Call;
pub use content::Content;
pub use entry::Entry;
pub use laws::{
    a_change_leaves_other_models_as_they_were, a_change_remembers_what_was_before,
    a_first_clash_is_a_clash, a_journal_grows_legally, a_journal_weighs_what_its_entries_do,
    a_log_asks_for_the_entries_of_its_numbers, a_read_is_ahead_or_shows_what_it_asks_for,
    a_refused_change_makes_no_entry, a_state_shows_its_defined_functions,
    a_trail_has_at_most_16_pairs, all_models_of_a_formula_step_or_none,
    an_accepted_step_fires_consistent_sets,
    an_answer_has_an_entry_exactly_where_it_is_an_accepted_change, an_answer_tells_its_number,
    each_entry_is_an_accepted_change, each_invariant_has_its_source,
    each_model_meets_its_invariants, models_ascend_by_name, none_is_broken_exactly_where_all_hold,
    still_stands, the_first_clash_is_the_clash,
};
pub use names::is_identifier;
pub use outcome::{Next, Outcome};
pub use prepared::{Accepted, Changed, NameVersion, News, Prepared};
pub use refusal::{Refusal, RefusalName};
pub use reply::{Body, Reply};
pub use request::call_port;
pub use stepped::Stepped;
pub use stop::Stop;
pub use trail::{Trail, TrailPair};
