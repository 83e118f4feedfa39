//! Laws of the class. The functions do nothing; a caller whose proof needs a law calls its function.
ghost use Rattle.work_gen.specs.Laws.{WorkIsRight, WorkIsAClass, BoundsAreRead, OnlyTheseAreRead, EachLoopIsBounded, TextsAreShort};
ghost use Rattle.work_gen.specs.Rows.{WorkRows};

use bound_texts::loops::laws::{gives_one, read_is_not_refused};
use class_making::laws::{classes_say_plans, items_are_few, plans_are_classes, plans_have_bytes};

/// The plan says what a class file may say.
pub fn work_is_right()
    ensures { WorkIsRight }
{
    items_are_few();
}

/// The class is a class file that says what its plan says, and its code is bytes.
pub fn work_is_a_class()
    ensures { WorkIsAClass }
{
    items_are_few();
    plans_are_classes();
    plans_have_bytes();
    classes_say_plans();
}

/// The text of the bounds is read, as the bounds of the class's loops and no others.
pub fn bounds_are_read()
    ensures read { BoundsAreRead }
    ensures only { OnlyTheseAreRead }
    ensures each { EachLoopIsBounded }
    ensures short { TextsAreShort }
{
    gives_one();
    read_is_not_refused();
}

/// The class at small sizes, worked out by hand.
pub fn rows_of_work()
    ensures { WorkRows }
{}
