//! What refuses a class by itself or by its place among others: what this machine doesn't support, at its fields, its methods and the
//! instructions of their code; a place in the hierarchy that it can't have (JVM Specification SE 8, 4.1, 4.6, 5.3.5 and 5.4.5); and
//! abstract methods that a class leaves without code (5.4.6 and 6.5.invokevirtual).
#![tactic(auto)]

mod classes;
mod first;
mod found;
mod instructions;
mod marks;
mod parts;
mod placed;
mod tables;

pub use classes::implementing_classes;
pub use first::first_unsupported;
pub use placed::{class_at, is_badly_placed, superclasses};
