//! Steps of the machine over calls and returns.
#![tactic(auto)]

/// Laws of the rows. Each is a function without a body, whose contract says it.
pub mod laws;
