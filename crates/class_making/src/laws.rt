//! Laws of made class files.
ghost use Rattle.class_making.specs.Laws.{PlansAreClasses, ClassesSayPlans, PlansHaveBytes, PlansHaveEntries, ItemsAreFew};

/// A plan that says what a class file may say makes a class file.
pub fn plans_are_classes()
    ensures { PlansAreClasses }
{}

/// The class file of a plan names what the plan names.
pub fn classes_say_plans()
    ensures { ClassesSayPlans }
{}

/// The code that a plan makes is bytes.
pub fn plans_have_bytes()
    ensures { PlansHaveBytes }
{}

/// A plan has at most six items for each of its mentions.
pub fn items_are_few()
    ensures { ItemsAreFew }
{}

/// What a plan mentions, and what this names, has its entry in the pool of the plan's class file.
pub fn plans_have_entries()
    ensures { PlansHaveEntries }
{}
