//! Why a certificate with prices is refused.
ghost use Rattle.std.specs.Prelude.{◌≡◌};
ghost use Rattle.bound_rules.specs.declared.faults.CheckFault.TheVariants.{NoMemory};
ghost use Rattle.fact_rules.specs.declared.faults.PricedFault.TheVariants.{Check};

use bound_rules::CheckFault;
use std::alloc::AllocError;

/// The first condition of a certificate with prices that fails. A node 2p is the instruction at place p of the method, and
/// a node 2p + 1 the raise step at it.
#[derive(Clone, Copy)]
pub enum PricedFault {
    /// No fact is given of just this node of the method with the scope of the price. Such a price goes before all other
    /// faults.
    Price(u32, u32),
    /// Each price is of a fact, and this fails of the sections and the last line; or there is no memory.
    Check(CheckFault),
}

impl From<CheckFault> for PricedFault {
    ghost from_gives = { λ given fault. fault ≡ Check given };

    fn from(fault: CheckFault) -> Self {
        PricedFault::Check(fault)
    }
}

impl From<AllocError> for PricedFault {
    ghost from_gives = { λ _ fault. fault ≡ Check NoMemory };

    fn from(_: AllocError) -> Self {
        PricedFault::Check(CheckFault::NoMemory)
    }
}
