//! Texts of bounds: how often loops go round at most by place or by line of source, and how long arrays are.
#![tactic(auto)]

pub mod loops;
pub mod sources;
