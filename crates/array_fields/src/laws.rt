//! Laws of the definitions in `specs/`. The functions do nothing; a caller whose proof needs a law calls its function.

ghost use Rattle.array_fields.specs.Laws.{KnownFieldsAreApart};

/// Fields that are known by what instructions put to them are none that have constants.
pub fn known_fields_are_apart()
    ensures apart { KnownFieldsAreApart }
{}
