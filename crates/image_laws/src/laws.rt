//! Laws of the words of an image. The functions do nothing; a caller whose proof needs a law calls its function.
ghost use Rattle.image_laws.specs.InterfaceEntries.{BootHasNoInterfaceEntry, BootStandsLast, InterfaceEntriesBeginWithZero, InterfaceEntriesTakeNothing};
ghost use Rattle.image_laws.specs.InterfaceEntries.{InterfaceWordsBeginWithZero};
ghost use Rattle.image_laws.specs.Laws.{CallsHaveSlots, ClassesAreSaid, CodesAreSaid, ComponentsAreNumbered, EntriesAreNamed, FirstObjectsLaw};
ghost use Rattle.image_laws.specs.Laws.{ImagesSayPrograms, InstanceFieldsAreSaid, InstancesAreSmall, InterfaceCallsAreSaid, InterfaceNumbersAreSaid};
ghost use Rattle.image_laws.specs.Laws.{IntsAreSaid, MethodsAreApart, MethodsAreSaid, OperandsLaw, SlotsAreInherited, SlotsAreSaid, StaticFieldsAreSaid};
ghost use Rattle.image_laws.specs.Laws.{StringsAreSaid, SupertypesAreSaid, VirtualCallsAreSaid};

use base::laws::packed_has_words;
use class_lookup::laws::{
    classes_extend_what_is_above, equals_are_compared, members_are_found_above,
    methods_are_looked_up, methods_have_signatures, overriding_is_decided,
    superclasses_stand_above, the_first_method_is_selected,
};
use class_rules::laws::methods_have_code;
use descriptors::laws::field_descriptors;
use image_words::laws::image_words_lie;
use program_laws::laws::{fields_come_after_those_above, resolved_programs_are_lawful};

/// The slots of a class begin with those of its superclasses.
pub fn slots_are_inherited()
    ensures { SlotsAreInherited }
{}

/// The slot of a method that is named through a class has, in the table of each class below, the method that is selected.
pub fn calls_have_slots()
    ensures { CallsHaveSlots }
{
    classes_extend_what_is_above();
    superclasses_stand_above();
    members_are_found_above();
    methods_are_looked_up();
}

/// In the words of an image, the slot of a method has the place of the method that is selected, and the number of an
/// interface's method does so in the tables of the classes that implement the interface.
pub fn tables_have_selected_methods()
    ensures slots { SlotsAreSaid }
    ensures interfaces { InterfaceNumbersAreSaid }
{
    calls_have_slots();
    classes_extend_what_is_above();
    superclasses_stand_above();
    members_are_found_above();
    the_first_method_is_selected();
    methods_have_code();
}

/// The codes of methods are codes, and their records have what an image says of them, each at a place of its own.
pub fn methods_are_said()
    ensures codes { CodesAreSaid }
    ensures records { MethodsAreSaid }
    ensures apart { MethodsAreApart }
{
    image_words_lie();
    methods_have_code();
}

/// The bits of a type's record are its supertypes, the type of an array's components has a number, and an instance has few
/// words.
pub fn types_are_said()
    ensures bits { SupertypesAreSaid }
    ensures components { ComponentsAreNumbered }
    ensures instances { InstancesAreSmall }
{}

/// The words of the entries that invokevirtual and invokeinterface name have the words of the arguments, and where the
/// method that is selected is found.
pub fn selected_calls_are_said()
    ensures virtual_calls { VirtualCallsAreSaid }
    ensures interface_calls { InterfaceCallsAreSaid }
{
    classes_extend_what_is_above();
    superclasses_stand_above();
    methods_have_signatures();
    overriding_is_decided();
    the_first_method_is_selected();
    equals_are_compared();
    methods_are_looked_up();
    members_are_found_above();
    packed_has_words();
    image_words_lie();
    calls_have_slots();
    tables_have_selected_methods();
}

/// An entry of a pool that an instruction of the class names has the words of what it means: numbers, the places of
/// strings, of types and of fields.
pub fn entries_have_meanings()
    ensures named { EntriesAreNamed }
    ensures numbers { IntsAreSaid }
    ensures strings { StringsAreSaid }
    ensures classes { ClassesAreSaid }
    ensures instance_fields { InstanceFieldsAreSaid }
    ensures static_fields { StaticFieldsAreSaid }
{
    packed_has_words();
    fields_come_after_those_above();
}

/// The first word of an entry for an interface's method is 0, where the class that is run first is a made one: no
/// `invokespecial` and no `invokestatic` takes a method by such an entry.
pub fn interface_entries_begin_with_zero()
    ensures last { BootStandsLast }
    ensures boot { BootHasNoInterfaceEntry }
    ensures taken { InterfaceEntriesTakeNothing }
    ensures words { InterfaceEntriesBeginWithZero }
    ensures image { InterfaceWordsBeginWithZero }
{
    classes_extend_what_is_above();
    superclasses_stand_above();
    methods_have_signatures();
    overriding_is_decided();
    the_first_method_is_selected();
    equals_are_compared();
    methods_are_looked_up();
    members_are_found_above();
    methods_have_code();
}

/// The pools of an image of few words say what each instruction names.
pub fn operands_are_said()
    ensures { OperandsLaw }
{
    classes_extend_what_is_above();
    superclasses_stand_above();
    methods_have_signatures();
    overriding_is_decided();
    the_first_method_is_selected();
    equals_are_compared();
    methods_are_looked_up();
    members_are_found_above();
    field_descriptors();
    methods_have_code();
    image_words_lie();
    entries_have_meanings();
    selected_calls_are_said();
}

/// The objects that are there at the start of a program of resolved classes are well formed.
pub fn first_objects_are_well_formed()
    ensures { FirstObjectsLaw }
{
    resolved_programs_are_lawful();
}

/// The image of resolved classes within the limits says the program that they are.
pub fn images_say_programs()
    ensures { ImagesSayPrograms }
{
    image_words_lie();
    methods_are_said();
    types_are_said();
    first_objects_are_well_formed();
    operands_are_said();
}
