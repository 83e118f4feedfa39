//! Classes of which none is above itself, with tables of what stands above each: fields and methods are looked up (JVM
//! Specification SE 8, 5.4.3) and methods selected (5.4.5, 6.5) by the symbols of their names and descriptors.
#![tactic(auto)]

mod above;
mod acyclic;
mod cycles;
mod deciding;
mod hierarchy;
mod marks;
mod members;
mod methods;
mod receivers;
mod selecting;

pub use class_lookup::Place;
pub use cycles::first_on_cycle;
pub use hierarchy::Hierarchy;
pub use methods::{is_joining, is_open, is_public_instance};
