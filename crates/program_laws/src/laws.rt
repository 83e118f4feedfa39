//! Laws of the definitions in `specs/`. The functions do nothing; a caller whose proof needs a law calls its function.
ghost use Rattle.program_laws.specs.Laws.{FieldLaw, ProgramLaw};

use class_lookup::laws::{
    classes_extend_what_is_above, equals_are_compared, members_are_found_above,
    methods_are_looked_up, methods_have_signatures, overriding_is_decided,
    superclasses_stand_above, the_first_method_is_selected,
};
use class_rules::laws::{fields_have_constants, methods_have_code};
use descriptors::laws::{field_descriptors, method_descriptors};

/// A resolved class has the fields of what it extends first, at the same indexes.
pub fn fields_come_after_those_above()
    ensures { FieldLaw }
{
    classes_extend_what_is_above();
    superclasses_stand_above();
}

/// A program of resolved classes has what typing presupposes of a program.
pub fn resolved_programs_are_lawful()
    ensures { ProgramLaw }
{
    classes_extend_what_is_above();
    superclasses_stand_above();
    methods_have_signatures();
    overriding_is_decided();
    the_first_method_is_selected();
    equals_are_compared();
    methods_are_looked_up();
    members_are_found_above();
    methods_have_code();
    fields_have_constants();
    field_descriptors();
    method_descriptors();
}
