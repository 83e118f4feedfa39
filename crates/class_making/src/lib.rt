//! Class files that the program makes: from plans, which name things where a class file has indexes, with a pool in
//! order of first mention.
#![tactic(auto)]

mod classes;
mod item;
pub mod laws;
mod maker;
mod members;
mod mentions;
pub mod parts;
mod plan;

pub use classes::{MakeFault, make};
pub use item::{Item, copy_of};
pub use maker::PoolMaker;
pub use plan::{ClassPlan, CodePlan, FieldPlan, MethodPlan, Piece};
