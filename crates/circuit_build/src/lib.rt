//! Circuits in the making: the logic between registers, wire by wire, and the parts around it, until both are a netlist.
//!
//! Each function says what the new net's word is, of the words of its operands, for all words at a clock. What is said of a net stays
//! true whatever is added behind it. A wire or a part for which there is no memory isn't there, and the circuit is refused in
//! the end: so what makes a circuit reads as the definition of the machine does.
#![tactic(auto)]

mod finishing;
mod fitting;
/// Laws of logic, while it is made and when it is finished.
pub mod laws;
mod logic;
mod nets;
mod operators;
mod parts;
mod rows;

pub use finishing::{BuildFault, finish};
pub use logic::Logic;
pub use nets::{always, constant, never};
pub use parts::Parts;
