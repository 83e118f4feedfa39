//! The program that class files are, or what refuses them first (JVM Specification SE 8, chapter 5).
#![tactic(auto)]

mod initialization;
mod main_class;
mod passes;
mod reading;
mod refusal;
mod resolving;

pub use core_classes::core_classes;
pub use passes::CORE_CLASSES;
pub use refusal::ProgramRefusal;
pub use resolved_program::Program;
pub use resolving::resolve;
