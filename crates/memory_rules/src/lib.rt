//! The rules of what a run needs of memory (JVM Specification SE 8, 2.5.3 and 2.6): the words of its frames, and those of the
//! objects that it may make, where loops that make objects have bounds and arrays have lengths. The definitions stand in `specs/`.
#![tactic(auto)]

mod causes;
pub mod laws;
mod needs;
mod sites;

pub use causes::{NeedCause, NeedFault};
pub use needs::Need;
pub use sites::{Makes, MethodSites, Site, Sites};
