//! Walks of the frames of a run (JVM Specification SE 8, 2.6 and 2.10): the nodes of its method's graph to which each frame has
//! come since it was made, what each step does to them, and that they are walks of the graphs, ended or not. Definitions and
//! laws alone: they stand in `specs/`.
#![tactic(auto)]

pub mod laws;
pub mod typed_graphs;
