//! Laws of what is linked. The functions do nothing; a caller whose proof needs a law calls its function.
ghost use Rattle.bytecode_typing.specs.Lawful.{Lawful};
ghost use Rattle.bytecode_typing.specs.Typed.{Typed};
ghost use Rattle.bytecode_verifier.specs.Failure.{types_found};
ghost use Rattle.image_facts.specs.Says.{Says};
ghost use Rattle.image_laws.specs.Laws.{CatchesAreNumbered, TablesAreAtStarts};
ghost use Rattle.image_words.specs.Regions.{places_of};
ghost use Rattle.program_tables.specs.Resolved.{resolved};
ghost use Rattle.jopizer.specs.Laws.{OneLinked, LinkedFilesAreNotRefused, RefusalsAreOne, LinkedImagesAreRead, MethodsAreOfFiles, MainIsThere};

use crate::linked::Linked;
use bytecode_typing::the_walk_finds_a_typing;
use bytecode_verifier::Verified;
use bytecode_verifier::laws::boot_is_verified;
use class_file::laws::one_class;
use class_rules::laws::methods_have_code;
use core_classes::laws::{
    boot_is_a_class, boot_says_plan, core_classes_are_classes, core_has_bytes, core_is_named,
};
use core_classes::linkage::{
    boot_is_linkable, boot_is_on_no_cycle, boot_is_supported, core_is_linkable, core_is_supported,
    core_stands_first,
};
use frame_types::laws::frames_stand_at_instructions;
use image_file::one_image;
use image_laws::laws::images_say_programs;
use opcodes::laws::{
    first_bad_is_a_start, instructions_end_within, instructions_partition_the_code,
    starts_follow_one_another,
};
use program_tables::laws::{members_are_there, methods_stand_by_number};

/// The file of an image is that of one linked program.
pub fn one_linked()
    ensures { OneLinked }
{
    one_class();
    one_image();
}

/// Nothing refuses files that are linked to classes.
pub fn linked_files_are_not_refused()
    ensures { LinkedFilesAreNotRefused }
{
    one_class();
}

/// Files are refused for one cause, memory apart.
pub fn refusals_are_one()
    ensures { RefusalsAreOne }
{
    one_class();
}

/// Nothing is wrong with the file of the image of what is linked.
pub fn linked_images_are_read()
    ensures { LinkedImagesAreRead }
{
    one_class();
    one_image();
}

/// A method in which a rule of the verifier fails is one of a file.
pub fn methods_are_of_files()
    ensures { MethodsAreOfFiles }
{
    core_is_linkable();
    core_stands_first();
    core_is_supported();
    core_classes_are_classes();
    core_has_bytes();
    core_is_named();
    boot_is_linkable();
    boot_is_supported();
    boot_is_a_class();
    boot_says_plan();
    boot_is_on_no_cycle();
    boot_is_verified();
    members_are_there();
}

/// Classes to which files are linked have the main of the main class, with code.
pub fn main_is_there()
    ensures { MainIsThere }
{
    core_is_named();
    methods_have_code();
}

/// The types that the exception tables of a verified program catch have numbers, and their ranges lie between instructions.
fn tables_are_sound(program: &Verified)
    ensures catches { CatchesAreNumbered (resolved program.now) }
    ensures tables { TablesAreAtStarts (resolved program.now) }
{
    program.program().is_resolved();
    the_walk_finds_a_typing();
    frames_stand_at_instructions();
    methods_have_code();
    methods_stand_by_number();
    starts_follow_one_another();
    first_bad_is_a_start();
    instructions_partition_the_code();
    instructions_end_within();
}

impl Linked {
    /// The program is typed, and has what typing presupposes of a program.
    pub fn is_typed(&self)
        ensures lawful { Lawful (resolved self.now.classes) }
        ensures typed { Typed (resolved self.now.classes) (types_found self.now.classes) }
    {
        self.program().is_typed();
    }

    /// The words of the image say the program.
    pub fn is_said(&self)
        ensures { Says (resolved self.now.classes) (places_of self.now.classes) }
    {
        let program = self.program();
        program.program().is_resolved();
        tables_are_sound(program);
        images_say_programs();
    }
}
