//! Whether the bounds of the methods that the slots of an executive call keep the slots' lengths, and how `plan` ends.
#![tactic(auto)]

mod plan;
mod planning;

pub use plan::{NotPlanned, plan_lines};
pub use planning::plan_files;
