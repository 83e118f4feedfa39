//! A class's place in the hierarchy (JVM Specification SE 8, 4.1, 4.6, 5.3.5 and 5.4.5).
ghost use Rattle.std.specs.Prelude.{◌≡◌, Some, ◌<◌, ◌&&◌, ◌||◌, ◌++◌, not, OnOk, false, length, slice_get, IfOk};
ghost use Rattle.std.specs.Option.{option_copied, option_map_or, option_to_list};
ghost use Rattle.std.specs.List.{filter_map, list_any};
ghost use Rattle.class_lookup.specs.Parts.{Signature, is_final};
ghost use Rattle.class_lookup.specs.Hierarchy.{superclass, superclasses, is_interface, is_on_a_cycle};
ghost use Rattle.class_lookup.specs.Lookup.{method_at, declared_method, same_place};
ghost use Rattle.class_lookup.specs.Symbols.{symbol};
ghost use Rattle.class_lookup.specs.Selection.{is_method_with, is_virtual, is_open_to, overrides_directly, overriding, upwards};
ghost use Rattle.program_tables.specs.Placed.{lacks_superclass, has_bad_superclass, has_bad_superinterface, is_bad_interface, overrides_final};
ghost use Rattle.program_tables.specs.Placed.{has_overridden_final, is_badly_placed};

use base::NoMemory;
use class_lookup::parts::has_flags;
use class_lookup::{Classes, Place, method_at};
use class_pool::ClassFile;
use class_rules::flags::{
    ACC_ACCESS, ACC_FINAL, ACC_INTERFACE, ACC_PRIVATE, ACC_PROTECTED, ACC_PUBLIC, ACC_STATIC,
};
use std::alloc::Global;

/// The class of this number, if there is one.
pub fn class_at(classes: &Classes, class: u32) -> Option<&ClassFile>
    ensures { option_copied result ≡ slice_get classes.now class }
{
    if class < classes.class_count() {
        Some(classes.class(class))
    } else {
        None
    }
}

/// The direct superclass, if there is such a class and it has one.
fn superclass_at(classes: &Classes, class: u32) -> Option<u32>
    ensures { result ≡ superclass classes.now class }
{
    if class < classes.class_count() {
        classes.superclass(class)
    } else {
        None
    }
}

/// Whether there is such a class, and it is an interface.
fn is_interface_at(classes: &Classes, class: u32) -> bool
    ensures { result ≡ is_interface classes.now class }
{
    class < classes.class_count() && classes.is_interface(class)
}

/// Whether the class isn't `java/lang/Object` and has no superclass.
fn lacks_superclass(classes: &Classes, class: u32) -> bool
    requires { class < length classes.now }
    ensures { result ≡ lacks_superclass classes.now class }
{
    classes.superclass(class).is_none() && class != 0
}

/// Whether the superclass is final or an interface.
fn has_bad_superclass(classes: &Classes, class: u32) -> bool
    requires { class < length classes.now }
    ensures { result ≡ has_bad_superclass classes.now class }
{
    let Some(upper) = classes.superclass(class) else {
        return false;
    };
    match class_at(classes, upper) {
        Some(file) => has_flags(file.flags, ACC_FINAL) || has_flags(file.flags, ACC_INTERFACE),
        None => false,
    }
}

/// Whether some superinterface is a class.
fn has_bad_superinterface(classes: &Classes, class: u32) -> bool
    requires { class < length classes.now }
    ensures { result ≡ has_bad_superinterface classes.now class }
{
    classes
        .superinterfaces(class)
        .iter()
        .any(|upper| !is_interface_at(classes, *upper))
}

/// Whether it is an interface whose superclass isn't `java/lang/Object`.
fn is_bad_interface(classes: &Classes, class: u32) -> bool
    requires { class < length classes.now }
    ensures { result ≡ is_bad_interface classes.now class }
{
    classes.is_interface(class)
        && match classes.superclass(class) {
            Some(upper) => upper != 0,
            None => false,
        }
}

fn is_final(classes: &Classes, place: Place) -> bool
    ensures { result ≡ is_method_with is_final classes.now place }
{
    match method_at(classes, place) {
        Some(method) => has_flags(method.flags, ACC_FINAL),
        None => false,
    }
}

/// Whether the method is neither static nor private.
fn is_virtual(classes: &Classes, place: Place) -> bool
    ensures { result ≡ is_virtual classes.now place }
{
    match method_at(classes, place) {
        Some(method) => !(has_flags(method.flags, ACC_STATIC)
            || has_flags(method.flags, ACC_PRIVATE)),
        None => false,
    }
}

/// Whether the method is public or protected, or is package-private and of the other's package.
fn is_open_to(classes: &Classes, place: Place, other: Place) -> bool
    ensures { result ≡ is_open_to classes.now place other }
{
    match method_at(classes, place) {
        Some(method) => {
            has_flags(method.flags, ACC_PUBLIC)
                || has_flags(method.flags, ACC_PROTECTED)
                || (!has_flags(method.flags, ACC_ACCESS)
                    && classes.are_in_one_package(other.class, place.class))
        }
        None => false,
    }
}

fn overrides_directly(classes: &Classes, place: Place, upper: Place) -> bool
    ensures { result ≡ overrides_directly classes.now place upper }
{
    is_virtual(classes, place) && is_virtual(classes, upper) && is_open_to(classes, upper, place)
}

/// Whether one of these overrides the method without another between.
fn is_overridden_by_one(classes: &Classes, joined: &[Place], upper: Place) -> bool
    ensures { result ≡ list_any (λ r. overrides_directly classes.now r upper) joined.now }
{
    joined
        .iter()
        .any(|lower| overrides_directly(classes, *lower, upper))
}

/// Whether it is the method itself, or one of those that joined it overrides it without another between.
fn joins(classes: &Classes, place: Place, joined: &[Place], upper: Place) -> bool
    ensures { result ≡ (same_place place upper || list_any (λ r. overrides_directly classes.now r upper) joined.now) }
{
    place == upper || is_overridden_by_one(classes, joined, upper)
}

/// Whether it is a final method and another one.
fn is_other_final(classes: &Classes, place: Place, upper: Place) -> bool
    ensures { result ≡ (is_method_with is_final classes.now upper && not (same_place place upper)) }
{
    is_final(classes, upper) && place != upper
}

/// The class, its superclass, and so on, over at most as many classes as there are.
pub fn superclasses(alloc: Global, classes: &Classes, class: u32) -> Result<Vec<u32>, NoMemory>
    requires { class < length classes.now }
    ensures { IfOk result (λ found. found.items ≡ superclasses classes.now class) }
{
    let mut found = Vec::new(alloc);
    let mut next = Some(class);
    let count = classes.class_count();
    for _ in 0..count {
        match next {
            Some(at) => {
                found.push(at)?;
                next = superclass_at(classes, at);
            }
            None => return Ok(found),
        }
    }
    Ok(found)
}

/// Puts the method last, if there is one.
fn put_found(places: &mut Vec<Place>, found: Option<Place>) -> Result<(), NoMemory>
    ensures { OnOk result (places.new.items ≡ places.old.items ++ option_to_list found) }
{
    if let Some(place) = found {
        places.push(place)?;
    }
    Ok(())
}

/// The methods of the name and the descriptor of these symbols that the classes of a list declare.
fn upwards(
    alloc: Global,
    classes: &Classes,
    chain: &[u32],
    name: u32,
    descriptor: u32,
) -> Result<Vec<Place>, NoMemory>
    ensures { IfOk result (λ places. (s : Signature) → symbol classes.now s.name ≡ Some name → symbol classes.now s.descriptor ≡ Some descriptor
        → places.items ≡ filter_map (declared_method classes.now s) chain.now) }
{
    let mut places = Vec::new(alloc);
    for class in chain {
        let found = classes.declared_method(*class, name, descriptor);
        put_found(&mut places, found)?;
    }
    Ok(places)
}

/// Whether the method overrides a final one of these, which are the methods of its name and descriptor from its class upwards.
///
/// Upwards, each that one of those below overrides without another between joins them.
fn overrides_some_final(
    alloc: Global,
    classes: &Classes,
    places: &[Place],
    place: Place,
) -> Result<bool, NoMemory>
    ensures { IfOk result (λ b. b ≡ list_any (λ a. is_method_with is_final classes.now a
        && (not (same_place place a) && list_any (same_place place) (overriding classes.now a places.now))) places.now) }
{
    let mut joined = Vec::new(alloc);
    for upper in places {
        if joins(classes, place, &joined, *upper) {
            if is_other_final(classes, place, *upper) {
                return Ok(true);
            }
            joined.push(*upper)?;
        }
    }
    Ok(false)
}

/// Whether a method overrides a final one, with the classes from its class upwards.
fn overrides_final(
    alloc: Global,
    classes: &Classes,
    chain: &[u32],
    place: Place,
) -> Result<bool, NoMemory>
    requires { chain.now ≡ superclasses classes.now place.0 }
    ensures { IfOk result (λ b. b ≡ overrides_final classes.now place) }
{
    let Some(file) = class_at(classes, place.class) else {
        return Ok(false);
    };
    let Some(method) = file.methods.as_slice().get(place.index) else {
        return Ok(false);
    };
    let name = classes.symbol(place.class, method.name);
    let descriptor = classes.symbol(place.class, method.descriptor);
    let places = upwards(alloc, classes, chain, name, descriptor)?;
    overrides_some_final(alloc, classes, &places, place)
}

/// Whether the class declares a final method.
fn declares_final(file: &ClassFile) -> bool
    ensures { result ≡ list_any is_final file.now.methods }
{
    file.methods
        .as_slice()
        .iter()
        .any(|method| has_flags(method.flags, ACC_FINAL))
}

/// The same, if there is such a class.
fn declares_final_at(classes: &Classes, class: u32) -> bool
    ensures { result ≡ option_map_or (λ k. list_any is_final k.methods) (slice_get classes.now class) false }
{
    match class_at(classes, class) {
        Some(file) => declares_final(file),
        None => false,
    }
}

/// Whether a class of a list declares a final method.
fn has_final(classes: &Classes, chain: &[u32]) -> bool
    ensures { result ≡ list_any (λ c. option_map_or (λ k. list_any is_final k.methods) (slice_get classes.now c) false) chain.now }
{
    chain.iter().any(|class| declares_final_at(classes, *class))
}

/// Whether a method of the class overrides a final one.
fn has_overridden_final(alloc: Global, classes: &Classes, class: u32) -> Result<bool, NoMemory>
    requires { class < length classes.now }
    ensures { IfOk result (λ b. b ≡ has_overridden_final classes.now class) }
{
    let chain = superclasses(alloc, classes, class)?;
    if !has_final(classes, &chain) {
        return Ok(false);
    }
    let count = classes.class(class).methods.as_slice().len();
    for index in 0..count {
        if overrides_final(alloc, classes, &chain, Place { class, index })? {
            return Ok(true);
        }
    }
    Ok(false)
}

/// Whether the class stands wrongly in the hierarchy, which it does where it is above itself.
pub fn is_badly_placed(
    alloc: Global,
    classes: &Classes,
    class: u32,
    on_cycle: bool,
) -> Result<bool, NoMemory>
    requires class { class < length classes.now }
    requires cycle { on_cycle ≡ is_on_a_cycle classes.now class }
    ensures { IfOk result (λ b. b ≡ is_badly_placed classes.now class) }
{
    if lacks_superclass(classes, class)
        || on_cycle
        || has_bad_superclass(classes, class)
        || has_bad_superinterface(classes, class)
        || is_bad_interface(classes, class)
    {
        return Ok(true);
    }
    has_overridden_final(alloc, classes, class)
}
