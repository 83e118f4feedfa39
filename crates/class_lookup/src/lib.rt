//! Members looked up and methods selected over a list of class files (JVM Specification SE 8, 5.4): the definitions stand
//! in `specs/`, and their laws in `laws`. `Classes` is a list of class files with tables of what they name.
#![tactic(auto)]

mod classes;
mod guesses;
pub mod laws;
mod members;
mod methods;
mod names;
pub mod parts;
mod place;
mod symbols;
mod texts;

pub use class_pool::ClassFile;
pub use classes::Classes;
pub use methods::method_at;
pub use place::Place;
