//! What a loop of a method's graph has, as marks by node, and which nodes each of its iterations visits.
#![tactic(auto)]

mod flags;
mod iterations;
mod marking;
mod reach;
mod routing;

pub use flags::{NodeFlags, is_flagged};
pub use iterations::{comes_back, is_on_each_iteration, reached_without};
pub use marking::{LoopMarks, marks_of};
pub use routing::Routes;
