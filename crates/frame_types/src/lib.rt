//! The frames of types that a method's StackMapTable gives, by the names of classes (JVM Specification SE 8, 4.7.4 and
//! 4.10.1).
#![tactic(auto)]

mod code;
mod extents;
pub mod laws;
mod mapping;
mod read;
mod steps;
mod types;

pub use mapping::map_steps;
pub use read::{Change, MapEntry};
pub use steps::{EntryType, FirstLocal, MapStep, StepChange};
pub use types::{Frames, MapFault, TypeFrame, VarType};
