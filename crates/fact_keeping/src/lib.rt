//! Activations that keep facts of how often places are visited: what that asks of an activation and of all that runs
//! within it, what a bound says of such activations, and that the stays within them keep the facts. The definitions stand
//! in `specs/`.
#![tactic(auto)]

pub mod laws;
