//! Whether the machine has halted.

/// Whether the machine has halted, and how.
#[derive(Clone, Copy, PartialEq, Eq)]
pub enum Halt {
    Running,
    /// The program returned from boot.
    Ended,
    /// An object was raised that nothing caught.
    Uncaught,
}
