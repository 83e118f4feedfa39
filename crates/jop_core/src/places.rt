//! The on-chip words that are no operands and no locals: what each of them holds.
//!
//! The places below [`POOL`] are scratch words of the microcode.

/// The place in memory of the current class's constant pool.
pub const POOL: u32 = 24;
/// The place in memory of the current method.
pub const METHOD: u32 = 25;
/// The place in memory of the next free word of the heap.
pub const NEXT_FREE: u32 = 26;
/// The number of words of the memory.
pub const MEMORY_END: u32 = 27;
/// The sum of the words that the frames take.
pub const FRAME_SUM: u32 = 28;
/// The most words that the frames may take.
pub const FRAME_LIMIT: u32 = 29;
/// The place in memory of the raise list.
pub const RAISE_LIST: u32 = 30;
/// The object that is raised.
pub const RAISED: u32 = 31;
/// The first of the 32 constants.
pub const CONSTANTS: u32 = 32;
/// The first word of the stack, where boot's locals begin.
pub const STACK: u32 = 64;
