//! Laws of what is answered of the bounds of methods: it is one answer, and so the lines of all methods are one text. Definitions and laws
//! alone: they stand in `specs/`.
#![tactic(auto)]

pub mod laws;
