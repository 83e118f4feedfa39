//! The source file of a class, the line of each place of a code, and those of a program's method.
#![tactic(auto)]

pub mod methods;
pub mod tables;
