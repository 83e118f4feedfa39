//! A place of a method, by the number of the method's name.

/// The key of a bound.
#[derive(Drop, PartialEq, Eq, Hash)]
pub struct Site {
    /// The place of the method's name among the names.
    pub name: usize,
    /// The place in its code.
    pub pc: u32,
}
