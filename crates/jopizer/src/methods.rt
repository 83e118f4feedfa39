//! The methods of a laid out program that have code, as a run of its image is told of them, and whether their codes fit the
//! method cache.

mod fitting;
mod methods;

pub use fitting::{TooLong, first_too_long};
pub use methods::methods_of;
