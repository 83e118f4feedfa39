//! Laws of the definitions in `specs/`. The functions do nothing; a caller whose proof needs a law calls its function.

ghost use Rattle.loop_rules.specs.Examples.{WorkedExamples};
ghost use Rattle.loop_rules.specs.Finding.{AreCountedLoops};
ghost use Rattle.loop_rules.specs.Laws.{CountsAreOne, FirstOutIsOne};
ghost use Rattle.loop_rules.specs.Sites.{AreIntSites};

/// A loop counts to one number at most, and one value is the first that leaves it.
pub fn counts_are_one()
    ensures counts { CountsAreOne }
    ensures values { FirstOutIsOne }
{}

/// Values that were worked out by hand.
pub fn worked_examples()
    ensures { WorkedExamples }
{}
