//! What a class names and can't be resolved (JVM Specification SE 8, 5.4.3, 5.4.4 and 6.5): which class isn't there, which member
//! isn't found, and what may not be used, at each place where a class file names something.
#![tactic(auto)]

mod access;
mod caller;
mod fields;
mod frames;
mod mentions;
mod methods;
mod names;
mod parts;
mod supertypes;

pub use mentions::first_unresolved;
pub use supertypes::first_unresolved_supertype;
