//! The end of the making: a netlist of the parts and the logic.

ghost use Rattle.circuit_build.specs.Parts.{Finished};

use crate::logic::Logic;
use crate::parts::Parts;
use base::Items;
use netlist::{Netlist, is_netlist};
use std::alloc::{AllocError, AllocFailed, Global};

/// Why no circuit was made.
#[derive(Clone, Copy, Debug, PartialEq, Eq)]
pub enum BuildFault {
    /// What was put together is no well-formed netlist: a net is not there, widths don't agree, or a name is none.
    Malformed,
    /// There was no memory.
    NoMemory,
}

impl From<AllocError> for BuildFault {
    ghost use Rattle.std.specs.Prelude.{◌≡◌};
    ghost use Rattle.circuit_build.specs.declared.finishing.BuildFault.TheVariants.{NoMemory};

    ghost from_gives = { λ _ fault. fault ≡ NoMemory };

    fn from(_: AllocError) -> Self {
        BuildFault::NoMemory
    }
}

impl<T: Drop> From<AllocFailed<T>> for BuildFault {
    ghost use Rattle.std.specs.Prelude.{◌≡◌};
    ghost use Rattle.circuit_build.specs.declared.finishing.BuildFault.TheVariants.{NoMemory};

    ghost from_gives = { λ _ fault. fault ≡ NoMemory };

    fn from(_: AllocFailed<T>) -> Self {
        BuildFault::NoMemory
    }
}

/// The circuit of these parts and this logic. The errors are that it isn't well formed, and that there was no memory, here or
/// for a part or a wire.
pub fn finish(alloc: Global, name: &[u8], parts: Parts, logic: Logic) -> Result<Netlist, BuildFault>
    ensures { Finished name.now parts logic result }
{
    if parts.lacks || logic.lacks {
        return Err(BuildFault::NoMemory);
    }
    let n = Netlist {
        name: Items::new(Vec::from_slice(alloc, name)?),
        inputs: Items::new(parts.inputs),
        wires: Items::new(logic.wires),
        registers: Items::new(parts.registers),
        memories: Items::new(parts.memories),
        outputs: Items::new(parts.outputs),
    };
    if is_netlist(&n) {
        Ok(n)
    } else {
        Err(BuildFault::Malformed)
    }
}
