//! What decoding gives.

/// An instruction of a code. What it lacks is 0.
#[derive(Clone, Copy)]
pub struct Instr {
    /// The opcode, and under `wide` the one that follows it.
    pub op: u8,
    /// Whether the opcode stands behind `wide`.
    pub wide: bool,
    /// How many bytes it has, with `wide`, its opcode and a switch's padding.
    pub length: u32,
    /// The constant, local variable, pool index, array code, branch offset or default offset that the
    /// operand bytes give. Offsets count from the instruction's own place.
    pub first: i32,
    /// The number that `iinc` adds, the argument words of `invokeinterface`, the dimensions of
    /// `multianewarray`, the low value of `tableswitch` or the number of pairs of `lookupswitch`, as it
    /// stands in the code.
    pub second: i32,
    /// How many targets a switch has, the default apart.
    pub count: u32,
    /// The place in the code where a switch's offsets or pairs begin.
    pub table: u32,
}

/// Why no instruction begins at a place.
#[derive(Clone, Copy)]
pub enum DecodeFault {
    /// The byte there, or the byte behind `wide`, is no opcode for that place.
    NoOpcode(u8),
    /// The instruction passes the end of the code.
    Short,
}

/// A case of a switch.
#[derive(Clone, Copy)]
pub struct Case {
    /// The key at which it is taken.
    pub key: i32,
    /// Its offset from the switch's place.
    pub offset: i32,
}
