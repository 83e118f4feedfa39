//! The classes that the program brings: the core classes, which stand before all others, and `jop/Boot`, which is run.
#![tactic(auto)]

mod boot;
pub mod laws;
pub mod linkage;
mod table;

pub use boot::boot_class;
pub use table::core_classes;
