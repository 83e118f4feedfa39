//! What follows of facts that lines say. Each function does nothing: its contract is the law.
ghost use Rattle.fact_names.specs.Examples.{NamedRows};
ghost use Rattle.fact_names.specs.Laws.{MeaningsAreOne, MeantIsNotRefused};

/// Where no two methods have one name, lines have one list of facts.
pub fn meanings_are_one()
    ensures { MeaningsAreOne }
{}

/// Where lines have facts, none of them says nothing.
pub fn meant_is_not_refused()
    ensures { MeantIsNotRefused }
{}

/// Lines that say something, and lines that say nothing, worked out by hand.
pub fn worked_examples()
    ensures { NamedRows }
{}
