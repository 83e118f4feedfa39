//! The names that the rows have for places and constants.

/// On-chip places that the machine and the microcode share: the place of the current class's pool.
pub const POOL: u16 = 24;

/// The place of the current method.
pub const METHOD: u16 = 25;

/// The next heap word.
pub const HEAP: u16 = 26;

/// The end of the memory.
pub const MEMORY_END: u16 = 27;

/// The sum of the frames.
pub const FRAMES: u16 = 28;

/// The greatest sum of the frames.
pub const FRAMES_MOST: u16 = 29;

/// The place of the raise list.
pub const RAISE_LIST: u16 = 30;

/// The object that is being raised.
pub const RAISED: u16 = 31;

/// Constants whose value isn't their number: 32 ones.
pub const ONES: u16 = 9;

/// 16 ones.
pub const LOW_16: u16 = 10;

/// 24 ones.
pub const LOW_24: u16 = 12;

/// 32.
pub const BIT_5: u16 = 13;

/// The opcode of `istore`, 54.
pub const OP_ISTORE: u16 = 14;

/// The opcode of `lstore`, 55.
pub const OP_LSTORE: u16 = 15;

/// The opcode of `iinc`, 132.
pub const OP_IINC: u16 = 17;

/// Constants whose value is their number: the opcode of `lload`.
pub const OP_LLOAD: u16 = 22;

/// The code of arrays of longs in the JVM Specification, 6.5 `newarray`.
pub const T_LONG: u16 = 11;
