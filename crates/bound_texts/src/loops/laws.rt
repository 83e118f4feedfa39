//! What follows of texts of bounds. Each function does nothing: its contract is the law.
ghost use Rattle.bound_texts.specs.Loops.Laws.{GivesOne, ReadIsNotRefused, LengthsGiveOne, ReadLengthsAreNotRefused};

/// A text gives one list of bounds.
pub fn gives_one()
    ensures { GivesOne }
{}

/// No line of a text that gives bounds is refused.
pub fn read_is_not_refused()
    ensures { ReadIsNotRefused }
{}

/// A text gives one list of lengths.
pub fn lengths_give_one()
    ensures { LengthsGiveOne }
{}

/// No line of a text that gives lengths is refused.
pub fn read_lengths_are_not_refused()
    ensures { ReadLengthsAreNotRefused }
{}
