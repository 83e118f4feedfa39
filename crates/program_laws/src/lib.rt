//! Laws of resolved classes (JVM Specification SE 8, 4.10, 5.3.5, 5.4.5 and 5.4.6): their hierarchy, their fields, what is selected in them, and that
//! the program that they are has what typing presupposes. The statements stand in `specs/`, over the definitions of `program_tables`.
#![tactic(auto)]

pub mod laws;
