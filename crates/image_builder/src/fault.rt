//! What an image may have at most, and why a program has none.
ghost use Rattle.std.specs.Prelude.{◌≡◌, Some, None, IfErr, OnOk};
ghost use Rattle.image_builder.specs.declared.fault.LayFault.TheVariants.{TooLarge};
ghost use Rattle.image_builder.specs.Passed.{passed};

use base::NoMemory;

/// What an image has at most so many of.
#[derive(Clone, Copy)]
pub enum Counted {
    Types,
    InterfaceMethods,
    Methods,
    Words,
}

/// Why a program has no image: the first limit that it passes, with the count and the limit.
#[derive(Clone, Copy)]
pub enum LayFault {
    TooLarge(Counted, u64, u64),
    NoMemory,
}

impl From<NoMemory> for LayFault {
    ghost use Rattle.std.specs.Prelude.{◌≡◌};
    ghost use Rattle.image_builder.specs.declared.fault.LayFault.TheVariants.{NoMemory};

    ghost from_gives = { λ _ fault. fault ≡ NoMemory };

    fn from(_: NoMemory) -> Self {
        LayFault::NoMemory
    }
}

/// Refuses a count that passes its limit.
pub fn within(what: Counted, count: u64, limit: u64) -> Result<(), LayFault>
    ensures within { OnOk result (passed what count limit ≡ None) }
    ensures fault { IfErr result (λ fault. fault ≡ TooLarge what count limit) }
    ensures passed { IfErr result (λ fault. passed what count limit ≡ Some (what, count, limit)) }
{
    if count > limit {
        Err(LayFault::TooLarge(what, count, limit))
    } else {
        Ok(())
    }
}
