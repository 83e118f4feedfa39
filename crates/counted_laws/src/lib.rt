//! Loops that count, along runs of the bytecode: each frame that is made takes at most as many back edges of such a loop between an
//! entry and the next leaving as is read off the code. Definitions and laws alone: they stand in `specs/`.
#![tactic(auto)]

pub mod laws;
