//! Which fields of a program hold null or arrays of one length, since each of its instructions that puts to them puts such an array
//! (JVM Specification SE 8, 4.7.2, 5.5, 6.5.putfield and 6.5.putstatic), and which instructions read them.
#![tactic(auto)]

mod contents;
mod fields;
mod first;
pub mod laws;
mod lengths;
mod puts;
mod reads;
mod rows;
mod sharing;

pub use fields::{FieldArrays, field_arrays};
pub use reads::arrays_read;
