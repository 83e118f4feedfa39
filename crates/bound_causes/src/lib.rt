//! Why no bound of a method's execution time is given, apart from numbers past 64 bits: no method has the name, methods that
//! may run call each other in a cycle, a loop has several entries, or no bound is given for a loop. Cause by cause, and the
//! least method first.
#![tactic(auto)]

mod asking;
mod causes;
pub mod laws;
mod lines;
mod shapes;

pub use asking::asked;
pub use causes::{Asked, cause_before_size, cause_of_root};
pub use lines::{check_loops, unbounded_in};
pub use shapes::{Shape, shape_of};
