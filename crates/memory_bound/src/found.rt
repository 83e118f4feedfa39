//! What is found of methods.

/// What is found of a method.
#[derive(Clone, Copy)]
pub struct Found {
    /// Whether it is found that each cycle of its graph is a loop with one entry. Else nothing is found.
    pub reducible: bool,
    /// Whether it makes objects.
    pub makes: bool,
    /// The place of the first header of a loop that makes objects and has no bound.
    pub unbounded: Option<u32>,
    /// The place of the first instruction that makes arrays and has no length.
    pub unlimited: Option<u32>,
    /// The words of objects that it may make, or `None` where they exceed 64 bits.
    pub heap: Option<u64>,
}

/// Of a method of which nothing is found.
pub const UNKNOWN: Found = Found {
    reducible: false,
    makes: false,
    unbounded: None,
    unlimited: None,
    heap: None,
};
