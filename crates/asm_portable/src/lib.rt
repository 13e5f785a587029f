//! Portable trees: values and replies as JSON has them.
#![tactic(auto)]

mod json;
mod laws;
mod leaves;
mod order;
mod port;
mod reader;
mod reading;
mod values;
mod weight;

pub use json::{port_text, tree_of};
pub use laws::{
    a_member_is_read_from_its_own_name, a_set_is_read_in_any_order,
    a_value_is_read_back_from_its_tree, an_integer_is_read_from_its_own_digits,
    what_is_read_is_a_value_of_the_domain,
};
pub use order::compare_trees;
pub use port::{Field, Port, push_field, put_field};
pub use reader::{PortRefusal, has_float, read_port};
pub use reading::{PortableRefusal, value_of};
pub use values::{port_of, ports_of};
