//! The superclasses of each class, and the superinterfaces of these.

ghost use Rattle.std.specs.Prelude.{◌≡◌, ℕ, ◌<◌, ◌++◌, ◌∷◌, [], length, Some, replicate, IfOk};
ghost use Rattle.std.specs.Option.{option_map_or};
ghost use Rattle.std.specs.List.{flat_map};
ghost use Rattle.class_lookup.specs.Hierarchy.{superclass, superclasses, superinterfaces, with_superinterfaces, all_superinterfaces, IsAcyclic};
ghost use Rattle.number_sets.specs.Numbers.{entry, IsSameSearch, IsTransitive};
ghost use Rattle.class_hierarchy.specs.TopDown.{IsTopDown};
ghost use Rattle.class_hierarchy.specs.Tables.{AreAbove};

use crate::acyclic::{direct_of, top_down};
use base::{Items, NoMemory};
use class_lookup::Classes;
use number_sets::{MarkedSet, NumberSet, empty_sets, upward_lists};
use std::alloc::Global;

/// What stands above each class.
#[derive(Drop)]
pub(crate) struct Above {
    /// The class and all its superclasses and superinterfaces.
    pub(crate) supertypes: Vec<NumberSet>,
    /// The class, its direct superclass, and so on.
    pub(crate) superclasses: Vec<Items<u32>>,
    /// The class and its superinterfaces.
    pub(crate) interfaces: Vec<NumberSet>,
    /// The superinterfaces of the class and of its superclasses.
    pub(crate) inherited: Vec<NumberSet>,
}

/// So many empty lists.
fn empty_lists(alloc: Global, count: u32) -> Result<Vec<Items<u32>>, NoMemory>
    ensures { IfOk result (λ lists. lists.items ≡ replicate count []) }
{
    let mut lists = Vec::new(alloc);
    for _index in 0..count {
        lists.push(Items::new(Vec::new(alloc)))?;
    }
    Ok(lists)
}

/// A class, and what the table has for its direct superclass.
fn superclass_list(
    alloc: Global,
    classes: &Classes,
    table: &[Items<u32>],
    class: u32,
) -> Result<Vec<u32>, NoMemory>
    requires class { class < length classes.now }
    requires table { length table.now ≡ length classes.now }
    ensures { IfOk result (λ list. list.items ≡ class ∷ option_map_or (entry table.now) (superclass classes.now class) []) }
{
    let mut list = Vec::new(alloc);
    list.push(class)?;
    if let Some(upper) = classes.superclass(class) {
        list.extend_from_slice(table[upper as usize].as_slice())?;
    }
    Ok(list)
}

/// For each class: itself, its direct superclass, and so on.
pub(crate) fn superclass_lists(
    alloc: Global,
    classes: &Classes,
    order: &[u32],
) -> Result<Vec<Items<u32>>, NoMemory>
    requires acyclic { IsAcyclic classes.now }
    requires order { IsTopDown classes.now order.now }
    ensures long { IfOk result (λ table. length table.items ≡ length classes.now) }
    ensures superclasses { IfOk result (λ table. (c : ℕ) → c < length classes.now → entry table.items c ≡ superclasses classes.now c) }
{
    let mut table = empty_lists(alloc, classes.class_count())?;
    for class in order {
        let list = superclass_list(alloc, classes, &table, *class)?;
        table[*class as usize] = Items::new(list);
    }
    Ok(table)
}

/// The superinterfaces of a class by the table of interfaces, and what the table has for its direct superclass.
fn inherited_list(
    alloc: Global,
    classes: &Classes,
    interfaces: &[NumberSet],
    table: &[NumberSet],
    class: u32,
) -> Result<NumberSet, NoMemory>
    requires class { class < length classes.now }
    requires table { length table.now ≡ length classes.now }
    requires through { IsTransitive interfaces.now }
    ensures { IfOk result (λ set. IsSameSearch set (flat_map (entry interfaces.now) (superinterfaces classes.now class)
        ++ option_map_or (entry table.now) (superclass classes.now class) [])) }
{
    let mut set = MarkedSet::new(alloc, table.len())?;
    set.insert_lists(classes.superinterfaces(class), interfaces)?;
    if let Some(upper) = classes.superclass(class) {
        set.insert_all(table[upper as usize].as_slice())?;
    }
    Ok(set.into_set())
}

/// For each class: all its superinterfaces, and then those of its superclass that aren't among them.
pub(crate) fn inherited_lists(
    alloc: Global,
    classes: &Classes,
    interfaces: &[NumberSet],
    order: &[u32],
) -> Result<Vec<NumberSet>, NoMemory>
    requires acyclic { IsAcyclic classes.now }
    requires order { IsTopDown classes.now order.now }
    requires through { IsTransitive interfaces.now }
    requires interfaces { (c : ℕ) → c < length classes.now → IsSameSearch (entry interfaces.now c) (with_superinterfaces classes.now c) }
    ensures long { IfOk result (λ table. length table.items ≡ length classes.now) }
    ensures inherited { IfOk result (λ table. (c : ℕ) → c < length classes.now → IsSameSearch (entry table.items c) (all_superinterfaces classes.now c)) }
{
    let mut table = empty_sets(alloc, classes.class_count() as usize)?;
    for class in order {
        let set = inherited_list(alloc, classes, interfaces, &table, *class)?;
        table[*class as usize] = set;
    }
    Ok(table)
}

/// The tables of what stands above each class.
pub(crate) fn above_of(alloc: Global, classes: &Classes) -> Result<Above, NoMemory>
    requires { IsAcyclic classes.now }
    ensures { IfOk result (λ above. AreAbove classes.now above) }
{
    let direct = direct_of(alloc, classes)?;
    let order = top_down(alloc, classes, &direct)?;
    let supertypes = upward_lists(alloc, &direct, order.as_slice())?;
    let superclasses = superclass_lists(alloc, classes, order.as_slice())?;
    let interfaces = upward_lists(alloc, classes.superinterface_lists(), order.as_slice())?;
    let inherited = inherited_lists(alloc, classes, &interfaces, order.as_slice())?;
    Ok(Above {
        supertypes,
        superclasses,
        interfaces,
        inherited,
    })
}
