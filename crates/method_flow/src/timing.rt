//! What a bound needs of the settings of the machine.

/// The cycles that a read and a write of main memory wait, and the blocks of the method cache with the words that each has.
#[derive(Clone, Copy)]
pub struct Timing {
    pub read: u32,
    pub write: u32,
    pub blocks: u32,
    pub block_words: u32,
}
