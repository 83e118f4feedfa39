//! How a call on a device fails.

/// Which call on a device failed.
#[derive(Clone, Copy, PartialEq, Eq)]
pub enum DeviceFault {
    /// The call of `input`.
    Input,
    /// The call of `output`.
    Output,
    /// The call of `seen`.
    Seen,
}
