//! The conditions on certificates with prices of facts, and why one is refused. The definitions stand in `specs/`, and
//! what follows of them in `laws`. One number of them is found here: the load of the method to which control comes back.
//!
//! A fact says how often a node of a method is visited at most. Each visit gives the price of the fact back, so that the
//! potentials of a section may fall by less than the node costs; the activation, or each entry of a loop, pays it as often
//! as the fact allows visits.
#![tactic(auto)]

mod callers;
mod faults;
pub mod laws;

pub use callers::callers_load;
pub use faults::PricedFault;
