//! The words of the image of a list of class files, and where its parts lie. The definitions stand in `specs/`, and their laws
//! in `laws`, whose functions do nothing; a caller whose proof needs a law calls its function. Built here is what needs the
//! classes with their types and strings alone: the methods of interfaces by number and the slots of method tables, how many
//! words items take, the places of parts by an `Outline`, and the words of the types and of the objects that are there at the
//! start. The whole image is laid out in `image_layout`.
#![tactic(auto)]

mod class_order;
mod class_slots;
mod item_sizes;
pub mod laws;
mod members;
mod objects;
mod outline;
mod signatures;
mod slots;
mod start;
mod types;

pub use class_order::superclass_order;
pub use item_sizes::{
    class_words, declared_words, interface_sizes, pool_sizes, table_sizes, type_words,
};
pub use members::is_interface;
pub use objects::object_sizes;
pub use outline::Outline;
pub use slots::{Slots, index_of_place, interface_methods};
pub use start::{add_raised, add_strings};
pub use types::{add_types, counted_type};
