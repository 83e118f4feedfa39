//! What follows of texts of facts. Each function does nothing: its contract is the law.
ghost use Rattle.flow_facts.specs.Laws.{GivesOne, ReadIsNotRefused};

/// A text gives one list of facts.
pub fn gives_one()
    ensures { GivesOne }
{}

/// No line of a text that gives facts is refused.
pub fn read_is_not_refused()
    ensures { ReadIsNotRefused }
{}
