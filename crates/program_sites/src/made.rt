//! What the instructions of a resolved program make (JVM Specification SE 8, 6.5.new, 6.5.newarray, 6.5.anewarray), as a table: for
//! each method with code the words of its frame, and its instructions that make objects, with the lengths of arrays that are
//! constants.

mod making;
mod methods;
mod objects;

pub use methods::sites_of;
