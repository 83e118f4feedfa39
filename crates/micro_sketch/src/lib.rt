//! A sketch of the machine between two boundaries, on which a row of the microcode is followed by
//! computing, the theorem that the machine does what its sketch does, and the rows of plain opcodes: numbers, locals, the stack,
//! ints and longs, division, jumps and switches.
#![tactic(auto)]

/// Laws of the sketch. Each is a function without a body, whose contract says it.
pub mod laws;
/// Laws of the rows. Each is a function without a body, whose contract says it.
pub mod plain;
pub mod step;
