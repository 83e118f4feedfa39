//! The bytecode verifier (JVM Specification SE 8, 4.10.1): the rules on members of classes and on what isn't initialised, the check of
//! each instruction, the walk over a method, and verified programs. The definitions of the rules stand in `bytecode_typing`; what
//! fails first in a program is defined in `specs/Failure`.
#![tactic(auto)]

mod around;
mod calls;
mod family;
mod fault;
mod fields;
mod first;
mod handlers;
pub mod laws;
mod made;
mod maps;
mod members;
mod methods;
mod names;
mod objects;
mod place;
mod ranges;
mod rows;
mod seen;
mod settle;
mod switches;
mod verified;

pub use fault::{MethodRule, VerifyFault};
pub use verified::{Verified, verify};
pub use verifier_types::Rule;
