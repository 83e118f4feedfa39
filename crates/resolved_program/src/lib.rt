//! A resolved program (JVM Specification SE 8, chapter 5) with tables: members, types and strings by number, members looked up
//! and methods selected.
#![tactic(auto)]

mod entries;
mod instances;
mod instructions;
mod names;
mod pool;
mod program;
mod tables;
mod types;

pub use program::Program;
pub use program_tables::{Declared, Handler, Instruction, MethodShape, Operand};
pub use types::TypeName;
