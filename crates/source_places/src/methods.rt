//! Which line of which file the instructions of a method of a program were compiled from (JVM Specification SE 8, 4.7.10 and 4.7.12),
//! by the name of the file as it is written in lines. The definitions stand in `specs/`.

mod sources;

pub use sources::{MethodSource, all_lines, file_of, lines_at, source_at, source_of};
