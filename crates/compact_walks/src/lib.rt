//! Greatest walks of a graph whose reached nodes have other numbers in a larger one: what is found of it, which of its loops are
//! charged, and what is said of its walks and loops under the other numbers.
#![tactic(auto)]

mod charging;
pub mod laws;
mod limited;
mod moving;
mod solving;

pub use charging::{held, outermost};
pub use limited::{limited_sum, picked};
pub use moving::{moved, numbers};
pub use solving::{Answer, solve};
