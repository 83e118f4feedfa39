//! Why bytes or units are not read.

use std::alloc::{AllocError, AllocFailed};

/// Why no value of a format was read.
#[derive(Clone, Copy, Debug, PartialEq, Eq)]
pub enum FormatFault {
    /// What was read is not of the format.
    Bad,
    /// There was no memory.
    NoMemory,
}

impl From<AllocError> for FormatFault {
    ghost use Rattle.std.specs.Prelude.{◌≡◌};
    ghost use Rattle.base.specs.declared.fault.FormatFault.TheVariants.{NoMemory};

    ghost from_gives = { λ _ fault. fault ≡ NoMemory };

    fn from(_: AllocError) -> Self {
        FormatFault::NoMemory
    }
}

impl<T: Drop> From<AllocFailed<T>> for FormatFault {
    ghost use Rattle.std.specs.Prelude.{◌≡◌};
    ghost use Rattle.base.specs.declared.fault.FormatFault.TheVariants.{NoMemory};

    ghost from_gives = { λ _ fault. fault ≡ NoMemory };

    fn from(_: AllocFailed<T>) -> Self {
        FormatFault::NoMemory
    }
}
