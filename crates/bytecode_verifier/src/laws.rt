//! Laws of verified programs (JVM Specification SE 8, 4.7.3, 4.7.4, 4.9.1 and 4.10): where no rule fails there are typings, and what
//! fails first is the first failure of a typing; in the classes that are there in every program no rule fails, so that what fails
//! stands in a file; the frame with which a method begins is the same by the names of classes. The functions do nothing; a caller whose proof needs a
//! law calls its function.
ghost use Rattle.bytecode_verifier.specs.Beginnings.{FirstFramesAgree};
ghost use Rattle.bytecode_verifier.specs.CoreLaws.{CoreIsVerified, BootIsVerified};
ghost use Rattle.bytecode_verifier.specs.Laws.{VerifiedMeansTyped, FirstFailureMeansFirst};

use bytecode_typing::the_walk_finds_a_typing;
use class_lookup::laws::equals_are_compared;
use class_making::laws::{items_are_few, plans_have_entries};
use class_rules::laws::methods_have_code;
use core_classes::laws::boot_says_plan;
use descriptors::laws::{field_descriptors, method_descriptors};
use frame_types::laws::frames_stand_at_instructions;
use program_tables::laws::methods_stand_by_number;

/// In resolved classes the first of a method's frames by names is the frame with which typing begins it.
pub fn first_frames_agree()
    ensures { FirstFramesAgree }
{
    equals_are_compared();
    field_descriptors();
    method_descriptors();
}

/// No rule fails in a method of a core class, whichever classes stand behind them, if each of these has a name.
pub fn core_is_verified()
    ensures { CoreIsVerified }
{}

/// No rule fails in the method of the class that is run, where it calls methods that are there.
pub fn boot_is_verified()
    ensures { BootIsVerified }
{
    items_are_few();
    plans_have_entries();
    boot_says_plan();
    methods_stand_by_number();
}

/// No rule fails in a program exactly where each code has its form and each method has a typing.
pub fn verified_programs_have_typings()
    ensures { VerifiedMeansTyped }
{
    the_walk_finds_a_typing();
    methods_have_code();
    frames_stand_at_instructions();
    methods_stand_by_number();
}

/// What fails first in a program is what fails first in the least of its methods without a typing.
pub fn what_fails_first_is_first_of_all()
    ensures { FirstFailureMeansFirst }
{
    the_walk_finds_a_typing();
    methods_have_code();
    frames_stand_at_instructions();
    methods_stand_by_number();
}
