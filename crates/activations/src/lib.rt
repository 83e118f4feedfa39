//! Activations of methods in runs of the machine: from the boundary before an invoke to the first later one at which the
//! caller's frame is on top again. What a step between two boundaries takes, activations as trees of the stays of frames, and
//! what a bound of a method says of them. The definitions stand in `specs/`.
#![tactic(auto)]

pub mod laws;
