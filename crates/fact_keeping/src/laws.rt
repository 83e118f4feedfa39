//! Laws of the definitions in `specs/`. The functions do nothing; a caller whose proof needs a law calls its function.

ghost use Rattle.fact_keeping.specs.Laws.{NoFactsAreAsked, OwnVisitsCount, StaysKeepBoth, StaysKeepFacts};

/// Where an activation keeps the facts, so do all stays within it.
pub fn stays_keep_facts()
    ensures { StaysKeepFacts }
{}

/// Where an activation keeps the bounds of loops and the facts, so do all stays within it.
pub fn stays_keep_both()
    ensures { StaysKeepBoth }
{}

/// What is counted over all boundaries of an activation counts the visits of its own walk, too.
pub fn own_visits_count()
    ensures { OwnVisitsCount }
{
    activations::laws::activations_are_trees();
}

/// A bound of the activations that keep no facts is one of all that keep the bounds of loops.
pub fn no_facts_are_asked()
    ensures { NoFactsAreAsked }
{}
