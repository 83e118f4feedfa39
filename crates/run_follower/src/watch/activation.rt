//! An activation of a method.
ghost use Rattle.std.specs.Prelude.{◌≡◌};
ghost use Rattle.run_follower.specs.Watch.Watched.{cycles_of, misses_of};

use crate::Here;

/// An activation that has begun: the boundary before the invoke, and the number of the method of which a frame was made.
#[derive(Clone, Copy)]
pub struct Begun {
    /// The boundary before the invoke.
    pub here: Here,
    /// The number of the method.
    pub method: u32,
}

/// An activation that has ended.
#[derive(Clone, Copy)]
pub struct Activation {
    /// The boundary at which it began.
    pub begun: Here,
    /// The number of the method.
    pub method: u32,
    /// The boundary at which it ended.
    pub ended: Here,
}

impl Activation {
    /// Its cycles, those of its callees included.
    pub fn cycles(self) -> u64
        ensures { result ≡ cycles_of self }
    {
        self.ended.clock.saturating_sub(self.begun.clock)
    }

    /// The misses of the method cache from its beginning to its end.
    pub fn misses(self) -> u64
        ensures { result ≡ misses_of self }
    {
        self.ended.misses.saturating_sub(self.begun.misses)
    }
}
