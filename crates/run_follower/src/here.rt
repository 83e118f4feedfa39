//! What is seen of a run at a boundary.

/// What is seen of a run at a boundary, where an instruction or the raising of an exception is about to be done.
#[derive(Clone, Copy)]
pub struct Here {
    /// The cycles done so far.
    pub clock: u64,
    /// The misses of the method cache so far.
    pub misses: u64,
    /// How many frames there are.
    pub frames: u32,
    /// The number of the top frame's method.
    pub method: u32,
    /// The place in its code of the top frame's instruction, in bytes.
    pub pc: u32,
}
