//! The rules on a class file (JVM Specification SE 8, 4.1 and 4.4 to 4.7): what is a class file among the values
//! that have bytes, and which values they are.
#![tactic(auto)]

mod attributes;
mod distinct;
mod fields;
pub mod flags;
mod forms;
pub mod laws;
mod methods;
mod pool;
mod rules;

pub use rules::follows_rules;
