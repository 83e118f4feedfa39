//! Which methods may run while another one does: whether they fit the method cache together, and an order in which each
//! stands behind all that it may run (JVM Specification SE 8, 6.5; JOP Reference Handbook, "Method Cache"). The definitions
//! stand in `specs/`.
#![tactic(auto)]

mod answers;
mod calls;
mod fitting;
pub mod laws;
mod search;
mod sizes;
mod targets_first;
mod walk;

pub use answers::{CallFault, Order, Region};
pub use fitting::{loop_region, region};
pub use sizes::words;
pub use targets_first::order;
