//! Class files (JVM Specification SE 8, chapter 4): read from bytes, and told from other values. What stands behind the pool
//! (4.1 and 4.5 to 4.7) is read by `structure` and its parts.
#![tactic(auto)]

mod checking;
mod fault;
pub mod laws;
mod parts;
mod reader;
mod structure;
mod test;
pub mod writing;

pub use base::Items;
pub use class_pool::{Attribute, Body, ClassFile, Code, Member};
pub use fault::ClassFault;
pub use reader::read_class;
pub use test::is_class;
