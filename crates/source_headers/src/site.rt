//! A number of a name, by the number of the name.

/// A number that is known of a name.
#[derive(Drop, PartialEq, Eq, Hash)]
pub struct Site {
    /// The place of the name among the names.
    pub name: usize,
    pub number: u32,
}
