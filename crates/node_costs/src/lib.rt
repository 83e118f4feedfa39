//! What the nodes of a method cost by themselves, what it takes to load methods, and the bounds of loops by place.
#![tactic(auto)]

mod bounds;
mod nodes;
mod stalls;

pub use bounds::{bound_at, bounds_of_headers};
pub use nodes::own_costs;
pub use stalls::{greatest_load, load, loads, printed};
