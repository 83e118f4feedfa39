//! Classes with their superclasses, from the uppermost on.
ghost use Rattle.std.specs.Prelude.{◌≡◌, ◌<◌, ◌^◌, length, map, IfOk};
ghost use Rattle.std.specs.List.{range_with_len};
ghost use Rattle.std.specs.Option.{option_to_list};
ghost use Rattle.class_lookup.specs.Hierarchy.{superclass, superclasses};
ghost use Rattle.image_words.specs.Order.{IsSuperclassFirst};

use base::{Items, NoMemory};
use class_hierarchy::Hierarchy;
use class_lookup::Classes;
use class_lookup::laws::superclasses_stand_above;
use number_sets::{NumberSet, order_of};
use std::alloc::Global;

/// The superclass of each class, as a list of one or none.
fn superclass_lists(alloc: Global, classes: &Classes) -> Result<Vec<Items<u32>>, NoMemory>
    ensures short { IfOk result (λ lists. length lists.items < 2 ^ 32) }
    ensures lists { IfOk result (λ lists. lists.items ≡ map (λ c. option_to_list (superclass classes.now c)) (range_with_len 0 (length classes.now))) }
{
    let mut lists = Vec::new(alloc);
    for class in 0..classes.class_count() {
        let mut list = Vec::new(alloc);
        if let Some(upper) = classes.superclass(class) {
            list.push(upper)?;
        }
        lists.push(Items::new(list))?;
    }
    Ok(lists)
}

/// All classes, each behind its superclass.
pub fn superclass_order(alloc: Global, classes: &Hierarchy) -> Result<NumberSet, NoMemory>
    ensures { IfOk result (λ order. IsSuperclassFirst classes.now order) }
{
    classes.is_without_cycle();
    let lists = superclass_lists(alloc, classes.classes())?;
    order_of(alloc, &lists)
}

/// The class, its superclass, and so on.
pub(crate) fn superclass_chain(
    alloc: Global,
    classes: &Hierarchy,
    class: u32,
) -> Result<Vec<u32>, NoMemory>
    requires { class < length classes.now }
    ensures { IfOk result (λ chain. chain.items ≡ superclasses classes.now class) }
{
    classes.is_without_cycle();
    superclasses_stand_above();
    let mut chain = Vec::new(alloc);
    let mut next = Some(class);
    while let Some(at) = next {
        chain.push(at)?;
        next = classes.classes().superclass(at);
    }
    Ok(chain)
}
