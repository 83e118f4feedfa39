//! What is selected for receivers of a class (JVM Specification SE 8, 6.5.invokevirtual and invokeinterface), by what is selected
//! for receivers of its direct superclass: one look at what the class declares tells it.
#![tactic(auto)]

mod named;
mod selected;

pub use selected::{Selected, selected_above, selected_with};
