//! Why a certificate is refused, and why no bound is given.
use std::alloc::AllocError;

/// The first condition of a certificate that fails. A node 2p is the instruction at place p of the method, and a
/// node 2p + 1 the raise step at it.
#[derive(Clone, Copy)]
pub enum CheckFault {
    /// The program has no code of this method, or no earlier section of it is of the kind that is asked for.
    Missing(u32),
    /// Among the listed nodes and the loops of the method's section this node is wrong.
    Member(u32, u32),
    /// The potentials of the method's section don't descend along the edge from the one node to the other.
    Edge(u32, u32, u32),
    /// This exit of the method isn't listed in its section, or its potential is less than its cost.
    Exit(u32, u32),
    /// The last line isn't right for this method, the root.
    Region(u32),
    /// There is no memory.
    NoMemory,
}

impl From<AllocError> for CheckFault {
    ghost use Rattle.std.specs.Prelude.{◌≡◌};
    ghost use Rattle.bound_rules.specs.declared.faults.CheckFault.TheVariants.{NoMemory};

    ghost from_gives = { λ _ fault. fault ≡ NoMemory };

    fn from(_: AllocError) -> Self {
        CheckFault::NoMemory
    }
}

/// Why no bound of a method is given.
#[derive(Drop)]
pub enum BoundRefusal {
    /// No method with code has the name, the one that starts the program excepted.
    NoMethod,
    /// These methods call one another in a ring: each may run the next, and the last one the first.
    Recursion(Vec<u32>),
    /// The reduction of the method's graph leaves these nodes, rising, beside the first instruction: it has a loop
    /// with several entries.
    Irreducible(u32, Vec<u32>),
    /// No bound is given for the loop of the method whose header is the instruction at this place.
    MissingBound(u32, u32),
    /// A number of the method, or iterations of its loops together, exceed 64 bits.
    TooLarge(u32),
    /// There is no memory.
    NoMemory,
}

impl From<AllocError> for BoundRefusal {
    ghost use Rattle.std.specs.Prelude.{◌≡◌};
    ghost use Rattle.bound_rules.specs.declared.faults.BoundRefusal.TheVariants.{NoMemory};

    ghost from_gives = { λ _ refusal. refusal ≡ NoMemory };

    fn from(_: AllocError) -> Self {
        BoundRefusal::NoMemory
    }
}
