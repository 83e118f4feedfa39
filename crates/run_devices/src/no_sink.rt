//! An output that keeps nothing.
ghost use Rattle.std.specs.Prelude.{None};

use outside::{Failed, Sink};

/// A sink that takes all bytes, tells nothing and never fails.
#[derive(Clone, Copy)]
pub struct NoSink;

impl Sink for NoSink {
    ghost held = { λ _. None };

    ghost faults = { λ _. 0 };

    fn put(&mut self, piece: &[u8]) -> Result<usize, Failed> {
        Ok(piece.len())
    }

    fn faults(&self) -> u64 {
        0
    }
}
