//! Why no need of memory is given.
use base::{Items, NoMemory};
use std::alloc::{AllocError, AllocFailed};

/// Why no need is given, without the methods of a cycle and the nodes that a reduction leaves.
#[derive(Clone, Copy)]
pub enum NeedCause {
    /// Methods call one another in a cycle.
    Recursion,
    /// The reduction of this method's graph leaves nodes beside the first instruction: it has a loop with several entries.
    Irreducible(u32),
    /// No bound is given for the loop of the method whose header is the instruction at this place, and it makes objects.
    MissingBound(u32, u32),
    /// The instruction of the method at this place makes arrays whose length is neither a constant nor given.
    MissingSize(u32, u32),
    /// The words of objects that this method may make exceed 64 bits.
    TooLarge(u32),
}

/// Why no need is given.
#[derive(Drop)]
pub enum NeedFault {
    /// Each of these methods may call the next, and the last one the first.
    Recursion(Items<u32>),
    /// The reduction of the method's graph leaves these nodes, rising, beside the first instruction.
    Irreducible(u32, Items<u32>),
    /// No bound is given for the loop of the method whose header is the instruction at this place, and it makes objects.
    MissingBound(u32, u32),
    /// The instruction of the method at this place makes arrays whose length is neither a constant nor given.
    MissingSize(u32, u32),
    /// The words of objects that this method may make exceed 64 bits.
    TooLarge(u32),
    /// There is no memory.
    NoMemory,
}

impl From<AllocError> for NeedFault {
    ghost use Rattle.std.specs.Prelude.{◌≡◌};
    ghost use Rattle.memory_rules.specs.declared.causes.NeedFault.TheVariants.{NoMemory};

    ghost from_gives = { λ _ fault. fault ≡ NoMemory };

    fn from(_: AllocError) -> Self {
        NeedFault::NoMemory
    }
}

impl<T: Drop> From<AllocFailed<T>> for NeedFault {
    ghost use Rattle.std.specs.Prelude.{◌≡◌};
    ghost use Rattle.memory_rules.specs.declared.causes.NeedFault.TheVariants.{NoMemory};

    ghost from_gives = { λ _ fault. fault ≡ NoMemory };

    fn from(_: AllocFailed<T>) -> Self {
        NeedFault::NoMemory
    }
}

impl From<NoMemory> for NeedFault {
    ghost use Rattle.std.specs.Prelude.{◌≡◌};
    ghost use Rattle.memory_rules.specs.declared.causes.NeedFault.TheVariants.{NoMemory};

    ghost from_gives = { λ _ fault. fault ≡ NoMemory };

    fn from(_: NoMemory) -> Self {
        NeedFault::NoMemory
    }
}
