//! What a call of `cycle` answers.

/// What a call of `cycle` answers, where no call on the device failed.
#[derive(Clone, Copy, PartialEq, Eq)]
pub enum Tick {
    /// The cycle was done.
    Went,
    /// The machine had halted, and nothing happened.
    Halted,
}
