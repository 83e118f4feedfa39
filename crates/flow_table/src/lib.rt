//! The table that an analysis needs of a resolved program (JVM Specification SE 8, 4.7.3, 5.4.6 and 6.5): the methods with code, with
//! their exception tables and their invokes, and one list for each method of what an invoke that names it may run.
#![tactic(auto)]

mod coded;
mod invokes;
mod marks;
mod methods;
mod program;
mod receivers;
mod targets;

pub use program::{find_method, flow_of};
