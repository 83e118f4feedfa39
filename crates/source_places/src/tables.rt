//! What a class file tells of its source: the file, and the lines of the instructions of a code (JVM Specification
//! SE 8, 4.7.10 and 4.7.12). Nothing is refused: an attribute that isn't of its form tells nothing.

pub mod laws;
mod lines;
mod numbers;
mod source;
mod starts;
mod table;

pub use lines::line_at;
pub use source::source_file;
pub use starts::LineStart;
pub use table::lines_of;
