//! A run of the machine over a program, from one boundary to the next: each is a step of the bytecode, for which the
//! machine then stands.
#![tactic(auto)]

mod answer;
mod followed;
/// Laws of the definitions in `specs/`. Each is a function without a body, whose contract says it.
pub mod laws;
mod methods;
mod running;
mod runs;
mod start;
mod top;
mod traces;

pub use answer::Boundary;
pub use followed::run_followed;
pub use image_facts::CodedMethod;
pub use running::Running;
pub use runs::{RunEnd, run};
pub use start::{boot_takes_six_words, uncaught_classes_are_there, verified_programs_are_told};
pub use traces::trace;
