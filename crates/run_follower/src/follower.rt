//! Who follows a run.
ghost use Rattle.std.specs.Prelude.{◌≡◌};
ghost use Rattle.run_follower.specs.declared.here.Here.{Here};
ghost use Rattle.run_follower.specs.Handed.{WasHanded, later_in};

use crate::here::Here;

/// Is handed what is seen of a run, boundary by boundary. A call can't fail.
pub trait Follower {
    /// What it is once it has been handed one thing more.
    ghost after: { Self → Here → Self };

    /// Is handed what is seen at the next boundary.
    fn at(&mut self, here: Here)
        ensures { self.new ≡ after self.old here };

    /// The same at a boundary of the same activation as the last one: what is seen differs in these alone, so the number of frames and the
    /// method needn't be handed again.
    fn at_same_frame(&mut self, clock: u64, misses: u64, pc: u32)
        ensures { (last : Here) → WasHanded after self.old last → self.new ≡ after self.old (later_in last clock misses pc) };
}

/// A follower that does nothing.
#[derive(Clone, Copy)]
pub struct NoFollower;

impl Follower for NoFollower {
    ghost after = { λ follower _. follower };

    #[inline(always)]
    fn at(&mut self, _here: Here) {}

    #[inline(always)]
    fn at_same_frame(&mut self, _clock: u64, _misses: u64, _pc: u32) {}
}
