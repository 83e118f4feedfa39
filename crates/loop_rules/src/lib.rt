//! Loops that count (JVM Specification SE 8, 4.7.2 and 6.5): how often a loop goes round at most, where that is read off the code that
//! sets, steps and tests a local variable. Definitions and laws stand in `specs/`; the code has the lists of what is told and found.
#![tactic(auto)]

mod found;
pub mod further;
pub mod laws;
mod sites;

pub use found::FoundLoop;
pub use sites::{IntSites, MethodSites};
