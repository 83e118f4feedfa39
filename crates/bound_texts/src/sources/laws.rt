//! What follows of texts of bounds by lines of sources. Each function does nothing: its contract is the law.
ghost use Rattle.bound_texts.specs.Sources.Laws.{NotesGiveOne, ReadNotesAreNotRefused, BoundsAreRead};

/// A text gives one list of bounds.
pub fn gives_one()
    ensures { NotesGiveOne }
{}

/// No line of a text that gives bounds is refused.
pub fn read_is_not_refused()
    ensures { ReadNotesAreNotRefused }
{}

/// A text of bounds by places of methods gives the same bounds here.
pub fn bounds_are_read()
    ensures { BoundsAreRead }
{}
