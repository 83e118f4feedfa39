//! Names and descriptors of class files (JVM Specification SE 8, 4.2 and 4.3).
#![tactic(auto)]

mod descriptor;
pub mod laws;
pub mod names;

pub use descriptor::{Element, FieldType, MethodType, argument_words, field_type, method_type};
