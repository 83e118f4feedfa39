//! Facts of how often places are visited that need nobody's promise: of a loop that counts, control comes at most so often from an
//! entry to the next to the place to which its test lets it go on. Definitions and laws alone: they stand in `specs/`.
#![tactic(auto)]

pub mod laws;
