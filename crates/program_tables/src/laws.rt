//! Laws of the definitions in `specs/`. The functions do nothing; a caller whose proof needs a law calls its function.
ghost use Rattle.program_tables.specs.Laws.{ComponentsAreTypes, MembersAreThere, MethodsStandByNumber};

/// The component of an array of references that is among the types is among them too.
pub fn components_are_types()
    ensures { ComponentsAreTypes }
{}

/// The method of a number is the one whose place has the number: none is left out.
pub fn methods_stand_by_number()
    ensures { MethodsStandByNumber }
{}

/// A member that has a number stands at its place.
pub fn members_are_there()
    ensures { MembersAreThere }
{}
