//! Names of methods and classes as words of texts and lines (JVM Specification SE 8, 4.2, 4.3 and 4.6): how a name is written, so that
//! no name breaks a line or is taken for another, and that the name of a method, its class's name, a dot, its own name and its
//! descriptor, tells the method.
#![tactic(auto)]

pub mod laws;
mod methods;
pub mod names;
mod reading;
mod writing;

pub use methods::written_name;
pub use reading::read_name;
pub use writing::{put_byte, put_first, put_written, write_name};
