//! Nets that are there without a wire.

ghost use Rattle.std.specs.Prelude.{◌≡◌};
ghost use Rattle.circuit_build.specs.Parts.{constant_net};

use netlist::{Driver, Net};

/// A word that is always the same.
pub fn constant(width: u32, word: u64) -> Net
    ensures { result ≡ constant_net width word }
{
    Net {
        width,
        driver: Driver::Constant(word),
    }
}

/// The bit that is always 0.
pub fn never() -> Net
    ensures { result ≡ constant_net 1 0 }
{
    constant(1, 0)
}

/// The bit that is always 1.
pub fn always() -> Net
    ensures { result ≡ constant_net 1 1 }
{
    constant(1, 1)
}
