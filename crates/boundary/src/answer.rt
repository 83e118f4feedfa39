//! Where a run of the machine stands.

/// How a run goes on from a boundary.
#[derive(Clone, Copy, PartialEq, Eq)]
pub enum Boundary {
    /// The machine is about to run an instruction.
    Bytecode,
    /// The machine is about to look for a handler of an object.
    Raise,
    /// The program returned from boot.
    Halted,
    /// An object of the class of this number had no handler.
    Uncaught(u32),
}
