//! Lists of numbers, all of one length, that share what they have alike: each is a binary tree over its indices, and of equal nodes
//! there is one.
#![tactic(auto)]

mod known;
mod pairs;
mod residues;
mod shared;
mod trees;

pub use shared::SharedLists;
pub use trees::Difference;
