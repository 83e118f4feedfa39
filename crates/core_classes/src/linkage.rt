//! The core classes in a program (JVM Specification SE 8, chapter 5). The functions do nothing; a caller whose proof needs a law
//! calls its function.
ghost use Rattle.core_classes.specs.Linkage.{CoreIsLinkable, CoreStandsFirst, CoreIsSupported, BootIsSupported, BootIsLinkable, BootIsOnNoCycle};

use crate::laws::boot_says_plan;
use class_making::laws::{items_are_few, plans_have_entries};

/// What the core classes name is resolved, and their places in the hierarchy are right, whichever classes stand behind them, if
/// each of these has a name.
pub fn core_is_linkable()
    ensures { CoreIsLinkable }
{}

/// This machine supports all that stands in the core classes.
pub fn core_is_supported()
    ensures { CoreIsSupported }
{}

/// The core classes are those that the virtual machine knows, before other classes of which the last has the method that is run
/// first.
pub fn core_stands_first()
    ensures { CoreStandsFirst }
{}

/// This machine supports all that stands in the class that is run.
pub fn boot_is_supported()
    ensures { BootIsSupported }
{
    items_are_few();
    plans_have_entries();
    boot_says_plan();
}

/// What the class that is run names is resolved, and its place in the hierarchy is right, where it calls methods that are there.
pub fn boot_is_linkable()
    ensures { BootIsLinkable }
{
    items_are_few();
    plans_have_entries();
    boot_says_plan();
}

/// The class that is run isn't above itself, whatever it calls.
pub fn boot_is_on_no_cycle()
    ensures { BootIsOnNoCycle }
{
    items_are_few();
    plans_have_entries();
    boot_says_plan();
}
