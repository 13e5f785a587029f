//! What a text declares, as far as terms and rules see it: its names, its functions, the parameters of
//! its macro rules, and its domains.
#![tactic(auto)]

mod domains;
mod headers;
mod names;
mod sameness;
mod scope;

pub use domains::{domain_of, factor_domains, param_domains};
pub use headers::Header;
pub use names::Names;
pub use sameness::same_domains;
pub use scope::Scope;
