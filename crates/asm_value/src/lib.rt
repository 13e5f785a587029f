//! Values with their total order and weights, domains, locations and updates; and the definitions
//! of states, consistency and firing that the crates above cite.
#![tactic(auto)]

mod args;
mod domain;
mod laws;
mod location;
mod membership;
mod range;
mod value;

pub use args::Args;
pub use asm_base::{Boxed, List, Shared, Text};
pub use domain::{Domain, DomainInfo, DomainKind, Domains, Live, fits};
pub use laws::{
    firing_a_list_writes_its_updates_alone, firing_nothing_changes_nothing,
    firing_one_after_another_is_firing_the_overlay, firing_writes_its_updates_alone,
    only_equal_values_tie, the_size_of_a_domain_is_the_number_of_its_members,
    there_is_at_most_one_clash,
};
pub use location::{Location, Subject, Update};
pub use membership::members;
pub use range::{sets_of, tuples};
pub use value::{Value, compare_all, copy_all};
