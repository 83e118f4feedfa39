//! Prices of facts of how often nodes of a graph are visited: each visit of a node gives the price of its fact back, and the
//! scope of the fact pays it as often as the fact allows visits. The prices are searched with which the greatest walk costs
//! little. What is found is shown by potentials, and checked elsewhere.
#![tactic(auto)]

mod counting;
mod guessing;
mod lines;
mod order;
mod problem;
mod reduced;
mod search;
mod sweep;

pub use order::sweep_order;
pub use problem::{Problem, VisitFact, loops_by_header};
pub use reduced::{Reduced, with_prices};
pub use search::found_prices;
pub use sweep::{Sweep, paid_value, swept};
