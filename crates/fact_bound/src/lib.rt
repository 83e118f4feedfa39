//! Bounds of execution time by facts of how often places are visited, and the certificates that show them.
#![tactic(auto)]

mod grammar;
mod methods;
mod placing;
mod plain;
mod search;
mod sections;

pub use plain::plain_as_priced;
pub use search::priced_certificate;
