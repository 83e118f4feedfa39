//! An input that has ended.
ghost use Rattle.std.specs.Prelude.{[], Some};

use outside::{Failed, Source};

/// A source that is empty and never fails.
#[derive(Clone, Copy)]
pub struct NoSource;

impl Source for NoSource {
    ghost left = { λ _. Some [] };

    ghost faults = { λ _. 0 };

    fn take(&mut self, _piece: &mut [u8]) -> Result<usize, Failed> {
        Ok(0)
    }

    fn faults(&self) -> u64 {
        0
    }
}
