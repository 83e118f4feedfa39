//! What a verified program that is laid out has at the start of its run. The statements stand in `specs/`. The functions here do
//! nothing; a caller whose proof needs a law calls its function.

ghost use Rattle.boundary.specs.Start.{BootTakesSixWords, UncaughtClassesAreThere, VerifiedProgramsAreTold};

use class_rules::laws::methods_have_code;
use frame_types::laws::frames_stand_at_instructions;

/// The image of a verified program within the limits says the program, which is lawful and typed; the words that are laid out
/// are those of the image, and as many.
pub fn verified_programs_are_told()
    ensures { VerifiedProgramsAreTold }
{
    bytecode_typing::the_walk_finds_a_typing();
    bytecode_typing::programs_with_typings_are_typed();
    program_laws::laws::resolved_programs_are_lawful();
    program_tables::laws::methods_stand_by_number();
    methods_have_code();
    frames_stand_at_instructions();
    opcodes::laws::starts_follow_one_another();
    opcodes::laws::first_bad_is_a_start();
    opcodes::laws::instructions_partition_the_code();
    opcodes::laws::instructions_end_within();
    image_words::laws::image_words_lie();
    image_facts::image_words_grow();
    image_laws::laws::images_say_programs();
}

/// The frame of the method that is run first takes six words of the stack.
pub fn boot_takes_six_words()
    ensures { BootTakesSixWords }
{}

/// Where an object of a class isn't caught, the class is one of the program's.
pub fn uncaught_classes_are_there()
    ensures { UncaughtClassesAreThere }
{}
