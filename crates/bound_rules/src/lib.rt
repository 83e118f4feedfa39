//! The rules of bounds of execution time: what the numbers of methods are, the conditions on a certificate, and why one is
//! refused or no bound is given. The definitions stand in `specs/`, and what follows of them in `laws`.
//!
//! A method's number is the greatest cost of the walks of its graph that keep the bounds of its loops, with the loads of
//! methods into the cache (JOP Reference Handbook, "Method Cache"). A certificate has a section for each method, whose
//! potentials show that no walk costs more than the section's value.
#![tactic(auto)]

mod faults;
pub mod laws;

pub use faults::{BoundRefusal, CheckFault};
