//! Classes in an order in which each stands behind its supertypes (JVM Specification SE 8, 4.1 and 5.3.5).

ghost use Rattle.std.specs.Prelude.{◌≡◌, ℕ, ◌^◌, ◌<◌, ◌≤◌, length, IfOk};
ghost use Rattle.class_lookup.specs.Hierarchy.{direct_supertypes, IsAcyclic};
ghost use Rattle.number_sets.specs.Numbers.{entry};
ghost use Rattle.class_hierarchy.specs.TopDown.{IsTopDown};

use base::{Items, NoMemory};
use class_lookup::Classes;
use number_sets::{NumberSet, order_of};
use std::alloc::Global;

/// What stands directly above a class: its direct superinterfaces in order, and then its direct superclass.
fn supertypes_of(alloc: Global, classes: &Classes, class: u32) -> Result<Vec<u32>, NoMemory>
    requires { class < length classes.now }
    ensures { IfOk result (λ found. found.items ≡ direct_supertypes classes.now class) }
{
    let mut found = Vec::from_slice(alloc, classes.superinterfaces(class))?;
    if let Some(upper) = classes.superclass(class) {
        found.push(upper)?;
    }
    Ok(found)
}

/// What stands directly above each class.
pub(crate) fn direct_of(alloc: Global, classes: &Classes) -> Result<Vec<Items<u32>>, NoMemory>
    ensures short { IfOk result (λ above. length above.items < 2 ^ 32) }
    ensures long { IfOk result (λ above. length above.items ≡ length classes.now) }
    ensures direct { IfOk result (λ above. (c : ℕ) → entry above.items c ≡ direct_supertypes classes.now c) }
{
    let mut above = Vec::new(alloc);
    for class in 0..classes.class_count() {
        above.push(Items::new(supertypes_of(alloc, classes, class)?))?;
    }
    Ok(above)
}

/// The classes in an order in which each stands behind all that are directly above it.
pub(crate) fn top_down(
    alloc: Global,
    classes: &Classes,
    above: &[Items<u32>],
) -> Result<NumberSet, NoMemory>
    requires acyclic { IsAcyclic classes.now }
    requires short { length above.now < 2 ^ 32 }
    requires long { length above.now ≡ length classes.now }
    requires direct { (c : ℕ) → entry above.now c ≡ direct_supertypes classes.now c }
    ensures order { IfOk result (λ order. IsTopDown classes.now order) }
    ensures few { IfOk result (λ order. length order ≤ length classes.now) }
{
    order_of(alloc, above)
}
