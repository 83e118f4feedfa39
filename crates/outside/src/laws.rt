//! What follows of what the outside tells: laws, which are functions without a body.

pub use base::{additions_join, nothing_is_added};
