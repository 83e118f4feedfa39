//! Laws of the definitions in `specs/`. The functions do nothing; a caller whose proof needs a law calls its function.
ghost use Rattle.verifier_types.specs.Laws.{TakingLaw, PaddingLaw};

/// The rules go on with what is taken off the stack, and where it is not there the rule on the stack fails.
pub fn what_is_taken_is_found()
    ensures { TakingLaw }
{}

/// Types of local variables that have room are filled up with Top, so many of it as are wanting.
pub fn what_has_room_is_filled()
    ensures { PaddingLaw }
{}
