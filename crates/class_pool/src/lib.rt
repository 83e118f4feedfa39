//! Class files as values: constant pools and their reader, and the types of what stands around them (JVM
//! Specification SE 8, 4.1 and 4.4 to 4.7).
#![tactic(auto)]

mod checking;
mod class;
mod entry;
mod found;
pub mod kind;
pub mod laws;
pub mod numbers;
mod pool;
mod reading;
mod references;
mod tag;
mod text;
mod units;
pub mod utf8;

pub use checking::is_pool;
pub use class::{Attribute, Body, ClassFile, Code, Member};
pub use entry::Entry;
pub use pool::{Pool, read_pool};
pub use units::Units;
