//! What certificates with prices say of the machine: laws. The definitions stand in `specs/`.
#![tactic(auto)]

pub mod laws;
