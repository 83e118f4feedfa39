//! What a run needs of memory.

/// What a run needs of memory, in words.
#[derive(Clone, Copy)]
pub struct Need {
    /// The words that its frames take together at most.
    pub stack: u64,
    /// The words that the objects take together at most which it makes.
    pub heap: u64,
}
