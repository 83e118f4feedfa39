//! A run as it is followed from outside: what is seen of it at each boundary, and who is handed that. `specs/Following` says what a
//! follower comes to over all that it is handed.
#![tactic(auto)]

mod follower;
mod here;
pub mod watch;

pub use follower::{Follower, NoFollower};
pub use here::Here;
