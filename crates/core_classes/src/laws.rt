//! Laws of the core classes and of the class that is run.
ghost use Rattle.core_classes.specs.Laws.{CoreClassesAreClasses, CoreHasBytes, CoreIsNamed, CoreSaysPlans, BootIsAClass, BootSaysPlan};

use class_making::laws::{classes_say_plans, items_are_few, plans_are_classes, plans_have_bytes};

/// The core classes are class files.
pub fn core_classes_are_classes()
    ensures { CoreClassesAreClasses }
{
    items_are_few();
    plans_are_classes();
}

/// The code of the core classes is bytes.
pub fn core_has_bytes()
    ensures { CoreHasBytes }
{
    items_are_few();
    plans_have_bytes();
}

/// The class that is run is a class file, whichever classes it calls, and its code is bytes.
pub fn boot_is_a_class()
    ensures { BootIsAClass }
{
    items_are_few();
    plans_are_classes();
    plans_have_bytes();
}

/// The names of the core classes.
pub fn core_is_named()
    ensures { CoreIsNamed }
{
    items_are_few();
    classes_say_plans();
}

/// Each core class says what its plan says.
pub fn core_says_plans()
    ensures { CoreSaysPlans }
{
    items_are_few();
    classes_say_plans();
}

/// The class that is run says what its plan says.
pub fn boot_says_plan()
    ensures { BootSaysPlan }
{
    items_are_few();
    classes_say_plans();
}
