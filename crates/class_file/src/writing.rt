//! Class files as bytes (JVM Specification SE 8, chapter 4).

mod members;
mod numbers;
mod parts;
mod pool;
mod writer;

pub use writer::{read_again, write_class};
