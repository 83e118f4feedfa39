//! Numbers in upward order with all that stands above each, and rows of bits by pairs of numbers.
//!
//! Numbers in an order in which each stands behind those that are directly above it, from a table of what stands directly above, and
//! the set of all that stand above each.
#![tactic(auto)]

pub mod bits;
mod groups;
mod hint;
mod marked;
mod number_set;
mod peel;
mod upward;

pub use groups::ranks_of;
pub use marked::MarkedSet;
pub use number_set::{NumberSet, empty_sets};
pub use peel::order_of;
pub use upward::upward_lists;
