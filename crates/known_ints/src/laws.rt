//! Laws of the definitions in `specs/`. The functions do nothing; a caller whose proof needs a law calls its function.

ghost use Rattle.known_ints.specs.Laws.{ConstantsAreApart, NoArraysAreRead};

/// Where nothing is known of fields but constants, no instruction reads a field that is known to hold arrays, and the empty list says
/// so of each method.
pub fn no_fields_are_read()
    ensures apart { ConstantsAreApart }
    ensures read { NoArraysAreRead }
{}
