//! A subject, by the number of its name.

/// The key of a bound.
#[derive(Drop, PartialEq, Eq, Hash)]
pub struct Site {
    /// Whether it is a line of a file, and not a place of a method.
    pub of_line: bool,
    /// The place of the name of the file or of the method among the names.
    pub name: usize,
    /// The line, or the place of the loop's header.
    pub number: u32,
}
