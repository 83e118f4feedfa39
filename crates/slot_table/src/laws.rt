//! What follows of tables and executives. Each function does nothing: its contract is the law.
ghost use Rattle.slot_table.specs.Laws.{GivesOne, ReadIsNotRefused, OneCause, ReadIsATable, ExecutiveIsAClass, ExecutiveCallsSlots};
ghost use Rattle.slot_table.specs.Rows.{ExecutiveRows};

use class_making::laws::{classes_say_plans, items_are_few, plans_are_classes, plans_have_bytes};

/// A text gives one table.
pub fn gives_one()
    ensures { GivesOne }
{}

/// A text that gives a table is not refused.
pub fn read_is_not_refused()
    ensures { ReadIsNotRefused }
{}

/// A text is refused for one cause, if memory doesn't lack.
pub fn one_cause()
    ensures { OneCause }
{}

/// What a text gives is a table.
pub fn read_is_a_table()
    ensures { ReadIsATable }
{}

/// The executive of a table is a class file that says what its plan says.
pub fn executive_is_a_class()
    ensures { ExecutiveIsAClass }
{
    items_are_few();
    plans_are_classes();
    plans_have_bytes();
    classes_say_plans();
}

/// The executive's main calls the slots in order.
pub fn executive_calls_slots()
    ensures { ExecutiveCallsSlots }
{}

/// A line of a text, and the bytes of some executives, worked out by hand.
pub fn executive_rows()
    ensures { ExecutiveRows }
{}
