//! What a device is handed of the machine's state.

/// Registers of the machine before a cycle.
#[derive(Clone, Copy, PartialEq, Eq)]
pub struct Seen {
    /// The cycles done so far.
    pub clock: u64,
    /// The address of the next word of the ROM.
    pub mpc: u16,
    /// The top word of the stack.
    pub a: u32,
    /// The word below it.
    pub b: u32,
    /// The on-chip place of the word below these two.
    pub sp: u32,
    /// The on-chip place of the top frame's locals.
    pub vp: u32,
}
