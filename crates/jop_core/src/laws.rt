//! A law of cycles: a function without a body.

ghost use Rattle.jop_core.specs.Keeps.{CyclesKeep};

/// A cycle raises the clock by one, and keeps the numbers of on-chip words and of words of memory, the waits
/// of the port, and the blocks of the method cache and their words.
pub fn cycles_keep()
    ensures { CyclesKeep }
{}
