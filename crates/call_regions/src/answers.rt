//! What is said of methods that may run while another does.
use base::Items;
use std::alloc::{AllocError, AllocFailed};

/// What may run together.
#[derive(Drop)]
pub enum Region {
    /// These methods, rising, which fit the method cache together.
    Fits(Items<u32>),
    /// Methods that don't fit it together.
    Exceeds,
}

/// Methods, each behind all that it may run.
#[derive(Drop)]
pub struct Order {
    pub methods: Items<u32>,
}

/// Why there is no order of methods.
#[derive(Drop)]
pub enum CallFault {
    /// There was no memory.
    NoMemory,
    /// Each of these methods may run the next, and the last one the first.
    Recursion(Items<u32>),
}

impl From<AllocError> for CallFault {
    ghost use Rattle.std.specs.Prelude.{◌≡◌};
    ghost use Rattle.call_regions.specs.declared.answers.CallFault.TheVariants.{NoMemory};

    ghost from_gives = { λ _ fault. fault ≡ NoMemory };

    fn from(_: AllocError) -> Self {
        CallFault::NoMemory
    }
}

impl<T: Drop> From<AllocFailed<T>> for CallFault {
    ghost use Rattle.std.specs.Prelude.{◌≡◌};
    ghost use Rattle.call_regions.specs.declared.answers.CallFault.TheVariants.{NoMemory};

    ghost from_gives = { λ _ fault. fault ≡ NoMemory };

    fn from(_: AllocFailed<T>) -> Self {
        CallFault::NoMemory
    }
}
