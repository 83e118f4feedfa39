//! The lines that say why class files don't link: what they name in the files, and their putting; and the names of a program's classes
//! as bytes (JVM Specification SE 8, 4.4.7), for which memory is got beforehand.
#![tactic(auto)]

mod entries;
pub mod laws;
mod lines;
mod missing;
mod names;
mod naming;
mod room;
mod telling;

pub use lines::{say_failure, say_limit, say_refusal};
pub use naming::name_in;
pub use room::name_room;
pub use telling::tell_name;
