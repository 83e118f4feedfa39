//! Laws of the definitions in `specs/`. The functions do nothing; a caller whose proof needs a law calls its function.

ghost use Rattle.memory_rules.specs.Laws.{ArraysAreCounted, FirstLengthIsOne, FirstLineIsOne, LackingIsNotHaving, MostIsOne, StackNeedsAreOne};

/// A run has one stack need and one heap need.
pub fn needs_are_one()
    ensures stack { StackNeedsAreOne }
    ensures heap { MostIsOne }
{}

/// One loop is the first that lacks a bound, and one instruction the first that lacks a length; where one does, not all have them.
pub fn first_lacking_is_one()
    ensures line { FirstLineIsOne }
    ensures length { FirstLengthIsOne }
    ensures none { LackingIsNotHaving }
{}

/// The words of arrays of constant lengths.
pub fn arrays_are_counted()
    ensures { ArraysAreCounted }
{}
