//! A class of any number of methods with counted loops, and the bounds of these loops: large valid input that needs no compiler.
#![tactic(auto)]

mod bounds;
mod class;
mod file;
pub mod laws;
mod main_method;

pub use bounds::work_bounds;
pub use class::make;
pub use file::work_file;
