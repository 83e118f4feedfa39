//! The methods that are selected for receivers of many classes, with at most one step for each class (JVM Specification SE 8,
//! 6.5.invokevirtual and invokeinterface).

ghost use Rattle.std.specs.Prelude.{◌≡◌, ◌∷◌, ◌<◌, ◌≤◌, ℕ, List, length, map, Some, None, false, IfOk, IfSome, IsTrue, is_some, slice_index_or};
ghost use Rattle.std.specs.Option.{option_map_or};
ghost use Rattle.class_lookup.specs.Hierarchy.{superclass, superclasses, IsAcyclic};
ghost use Rattle.class_lookup.specs.Lookup.{Place as APlace};
ghost use Rattle.class_hierarchy.specs.declared.receivers.Selected.{Selected as SelectedSoFar};
ghost use Rattle.class_hierarchy.specs.Deciding.{is_early, is_deciding};
ghost use Rattle.class_hierarchy.specs.Members.{HasSymbols};
ghost use Rattle.class_hierarchy.specs.Selecting.{selected_of, selected_at, selected_above, AreKnown, AreChains};

use crate::deciding::{is_at_or_below, is_overridable};
use crate::members::{Named, declared_as};
use crate::methods::{is_joining, is_open, is_public_instance, is_virtual};
use base::{Items, NoMemory};
use class_lookup::{Classes, Place};
use std::alloc::Global;

/// What is selected for a receiver of a class.
#[derive(Clone, Copy)]
pub(crate) struct Selected {
    pub(crate) place: Option<Place>,
    /// Whether the method, or one through which it overrides the resolved one, may be overridden by each class below.
    pub(crate) free: bool,
}

/// A resolved method, and the tables in which it is found what is selected.
#[derive(Drop)]
pub(crate) struct Resolved<'a> {
    pub(crate) classes: &'a Classes,
    pub(crate) superclasses: &'a [Items<u32>],
    pub(crate) method: Named,
    pub(crate) of_interface: bool,
}

/// What is selected where a class declares this method, by what is selected for its superclass.
fn with_method(resolved: &Resolved<'_>, above: &Selected, place: Place) -> Selected
    ensures { (ms : List APlace) → above.now ≡ selected_of resolved.now.classes.now resolved.now.of_interface resolved.now.method.place ms
        → result ≡ selected_of resolved.now.classes.now resolved.now.of_interface resolved.now.method.place (place ∷ ms) }
{
    let classes = resolved.classes;
    if resolved.of_interface {
        if is_public_instance(classes, place) {
            Selected {
                place: Some(place),
                free: false,
            }
        } else {
            *above
        }
    } else if is_joining(
        classes,
        resolved.method.place,
        above.place.is_some(),
        above.free,
        place,
    ) {
        Selected {
            place: Some(place),
            free: above.free || is_open(classes, place),
        }
    } else {
        *above
    }
}

/// What a table has for a class.
fn known_at(table: &[Option<Selected>], class: u32) -> Selected
    requires { class < length table.now }
    ensures { (s : SelectedSoFar) → slice_index_or table.now class None ≡ Some s → result ≡ s }
{
    match &table[class as usize] {
        Some(selected) => *selected,
        None => Selected {
            place: None,
            free: false,
        },
    }
}

/// What is selected for the direct superclass, where that is known; nothing where there is none.
fn selected_above(resolved: &Resolved<'_>, table: &[Option<Selected>], class: u32) -> Selected
    requires class { class < length resolved.now.classes.now }
    requires table { length table.now ≡ length resolved.now.classes.now }
    requires known { (d : ℕ) → superclass resolved.now.classes.now class ≡ Some d
        → slice_index_or table.now d None ≡ Some (selected_at resolved.now.classes.now resolved.now.of_interface resolved.now.method.place d) }
    ensures { result ≡ selected_above resolved.now.classes.now resolved.now.of_interface resolved.now.method.place class }
{
    match resolved.classes.superclass(class) {
        Some(upper) => known_at(table, upper),
        None => Selected {
            place: None,
            free: false,
        },
    }
}

/// What is selected for a class, where it is known for its direct superclass.
fn selected_for(resolved: &Resolved<'_>, table: &[Option<Selected>], class: u32) -> Selected
    requires named { HasSymbols resolved.now.classes.now resolved.now.method }
    requires class { class < length resolved.now.classes.now }
    requires acyclic { IsAcyclic resolved.now.classes.now }
    requires table { length table.now ≡ length resolved.now.classes.now }
    requires known { (d : ℕ) → superclass resolved.now.classes.now class ≡ Some d
        → slice_index_or table.now d None ≡ Some (selected_at resolved.now.classes.now resolved.now.of_interface resolved.now.method.place d) }
    ensures { result ≡ selected_at resolved.now.classes.now resolved.now.of_interface resolved.now.method.place class }
{
    let above = selected_above(resolved, table, class);
    match declared_as(resolved.classes, &resolved.method, class) {
        Some(place) => with_method(resolved, &above, place),
        None => above,
    }
}

/// Whether a method that a class declares is selected for the class whatever else stands above it, where that may be.
fn is_deciding(resolved: &Resolved<'_>, class: u32, place: Place) -> bool
    requires class { class < length resolved.now.classes.now }
    requires chains { AreChains resolved.now.classes.now resolved.now.superclasses.now }
    ensures { IsTrue result → IsTrue (is_deciding resolved.now.classes.now resolved.now.of_interface resolved.now.method.place
        (superclasses resolved.now.classes.now class) place) }
{
    if resolved.of_interface {
        is_public_instance(resolved.classes, place)
    } else {
        is_virtual(resolved.classes, place)
            && is_at_or_below(resolved.superclasses, class, resolved.method.place.class)
    }
}

/// What is selected for a class, where what it declares tells that.
fn decided(resolved: &Resolved<'_>, class: u32) -> Option<Selected>
    requires named { HasSymbols resolved.now.classes.now resolved.now.method }
    requires class { class < length resolved.now.classes.now }
    requires chains { AreChains resolved.now.classes.now resolved.now.superclasses.now }
    requires early { IsTrue (is_early resolved.now.classes.now resolved.now.of_interface resolved.now.method.place) }
    ensures { IfSome result (λ s. s ≡ selected_at resolved.now.classes.now resolved.now.of_interface resolved.now.method.place class) }
{
    match declared_as(resolved.classes, &resolved.method, class) {
        Some(place) => {
            if is_deciding(resolved, class, place) {
                Some(Selected {
                    place: Some(place),
                    free: !resolved.of_interface,
                })
            } else {
                None
            }
        }
        None => None,
    }
}

/// Whether it is known what is selected for the direct superclass, if there is one.
fn is_above_known(resolved: &Resolved<'_>, table: &[Option<Selected>], class: u32) -> bool
    requires class { class < length resolved.now.classes.now }
    requires table { length table.now ≡ length resolved.now.classes.now }
    ensures { result ≡ option_map_or (λ upper. is_some (slice_index_or table.now upper None)) (superclass resolved.now.classes.now class) false }
{
    match resolved.classes.superclass(class) {
        Some(upper) => table[upper as usize].is_some(),
        None => false,
    }
}

/// Whether it is known what is selected for a class; where what the class declares tells that, it is put down. `early` says
/// whether it can.
fn is_settled(
    resolved: &Resolved<'_>,
    early: bool,
    table: &mut Vec<Option<Selected>>,
    class: u32,
) -> bool
    requires named { HasSymbols resolved.now.classes.now resolved.now.method }
    requires class { class < length resolved.now.classes.now }
    requires chains { AreChains resolved.now.classes.now resolved.now.superclasses.now }
    requires early { IsTrue early → IsTrue (is_early resolved.now.classes.now resolved.now.of_interface resolved.now.method.place) }
    requires known { AreKnown (selected_at resolved.now.classes.now resolved.now.of_interface resolved.now.method.place)
        (length resolved.now.classes.now) table.old.items }
    ensures known { AreKnown (selected_at resolved.now.classes.now resolved.now.of_interface resolved.now.method.place)
        (length resolved.now.classes.now) table.new.items }
    ensures there { IsTrue result → IsTrue (is_some (slice_index_or table.new.items class None)) }
{
    if table[class as usize].is_some() {
        return true;
    }
    // Where it is known for the superclass, one look at the class tells it all the same.
    if !early || is_above_known(resolved, table, class) {
        return false;
    }
    match decided(resolved, class) {
        Some(selected) => {
            table[class as usize] = Some(selected);
            true
        }
        None => false,
    }
}

/// The place of the first of these classes of which it is known what is selected; their number where there is none.
fn first_settled(
    resolved: &Resolved<'_>,
    early: bool,
    table: &mut Vec<Option<Selected>>,
    list: &[u32],
) -> usize
    requires named { HasSymbols resolved.now.classes.now resolved.now.method }
    requires list { (i : ℕ) → i < length list.now → slice_index_or list.now i 0 < length resolved.now.classes.now }
    requires chains { AreChains resolved.now.classes.now resolved.now.superclasses.now }
    requires early { IsTrue early → IsTrue (is_early resolved.now.classes.now resolved.now.of_interface resolved.now.method.place) }
    requires known { AreKnown (selected_at resolved.now.classes.now resolved.now.of_interface resolved.now.method.place)
        (length resolved.now.classes.now) table.old.items }
    ensures within { result ≤ length list.now }
    ensures known { AreKnown (selected_at resolved.now.classes.now resolved.now.of_interface resolved.now.method.place)
        (length resolved.now.classes.now) table.new.items }
    ensures there { result < length list.now → IsTrue (is_some (slice_index_or table.new.items (slice_index_or list.now result 0) None)) }
{
    for (i, class) in list.iter().enumerate() {
        if is_settled(resolved, early, table, *class) {
            return i;
        }
    }
    list.len()
}

/// Puts down what is selected for a class and for those above it, from the uppermost on for which that isn't known.
fn fill(resolved: &Resolved<'_>, early: bool, table: &mut Vec<Option<Selected>>, class: u32)
    requires named { HasSymbols resolved.now.classes.now resolved.now.method }
    requires class { class < length resolved.now.classes.now }
    requires early { IsTrue early → IsTrue (is_early resolved.now.classes.now resolved.now.of_interface resolved.now.method.place) }
    requires chains { AreChains resolved.now.classes.now resolved.now.superclasses.now }
    requires known { AreKnown (selected_at resolved.now.classes.now resolved.now.of_interface resolved.now.method.place)
        (length resolved.now.classes.now) table.old.items }
    ensures known { AreKnown (selected_at resolved.now.classes.now resolved.now.of_interface resolved.now.method.place)
        (length resolved.now.classes.now) table.new.items }
    ensures there { IsTrue (is_some (slice_index_or table.new.items class None)) }
{
    let list = resolved.superclasses[class as usize].as_slice();
    let mut i = first_settled(resolved, early, table, list);
    while i > 0 {
        i -= 1;
        let selected = selected_for(resolved, table, list[i]);
        table[list[i] as usize] = Some(selected);
    }
}

/// The method that is selected for a receiver.
fn place_for(
    resolved: &Resolved<'_>,
    early: bool,
    table: &mut Vec<Option<Selected>>,
    receiver: u32,
) -> Option<Place>
    requires named { HasSymbols resolved.now.classes.now resolved.now.method }
    requires class { receiver < length resolved.now.classes.now }
    requires early { IsTrue early → IsTrue (is_early resolved.now.classes.now resolved.now.of_interface resolved.now.method.place) }
    requires chains { AreChains resolved.now.classes.now resolved.now.superclasses.now }
    requires known { AreKnown (selected_at resolved.now.classes.now resolved.now.of_interface resolved.now.method.place)
        (length resolved.now.classes.now) table.old.items }
    ensures known { AreKnown (selected_at resolved.now.classes.now resolved.now.of_interface resolved.now.method.place)
        (length resolved.now.classes.now) table.new.items }
    ensures place { result ≡ (selected_at resolved.now.classes.now resolved.now.of_interface resolved.now.method.place receiver).place }
{
    fill(resolved, early, table, receiver);
    known_at(table, receiver).place
}

/// The methods that are selected for these receivers, where what each of their classes declares tells it.
fn decided_each(
    alloc: Global,
    resolved: &Resolved<'_>,
    early: bool,
    receivers: &[u32],
) -> Result<Option<Vec<Option<Place>>>, NoMemory>
    requires named { HasSymbols resolved.now.classes.now resolved.now.method }
    requires receivers { (i : ℕ) → i < length receivers.now → slice_index_or receivers.now i 0 < length resolved.now.classes.now }
    requires chains { AreChains resolved.now.classes.now resolved.now.superclasses.now }
    requires early { IsTrue early → IsTrue (is_early resolved.now.classes.now resolved.now.of_interface resolved.now.method.place) }
    ensures { IfOk result (λ found. IfSome found (λ places. places.items ≡ map
        (λ c. (selected_at resolved.now.classes.now resolved.now.of_interface resolved.now.method.place c).place) receivers.now)) }
{
    if !early {
        return Ok(None);
    }
    let mut places = Vec::new(alloc);
    for receiver in receivers {
        match decided(resolved, *receiver) {
            Some(selected) => places.push(selected.place)?,
            None => return Ok(None),
        }
    }
    Ok(Some(places))
}

/// The methods that are selected for these receivers, by a table of what is selected for each class.
fn tabled_each(
    alloc: Global,
    resolved: &Resolved<'_>,
    early: bool,
    receivers: &[u32],
) -> Result<Vec<Option<Place>>, NoMemory>
    requires named { HasSymbols resolved.now.classes.now resolved.now.method }
    requires receivers { (i : ℕ) → i < length receivers.now → slice_index_or receivers.now i 0 < length resolved.now.classes.now }
    requires chains { AreChains resolved.now.classes.now resolved.now.superclasses.now }
    requires early { IsTrue early → IsTrue (is_early resolved.now.classes.now resolved.now.of_interface resolved.now.method.place) }
    ensures { IfOk result (λ places. places.items ≡ map (λ c.
        (selected_at resolved.now.classes.now resolved.now.of_interface resolved.now.method.place c).place) receivers.now) }
{
    let mut table = vec![in alloc; None; resolved.superclasses.len()]?;
    let mut places = Vec::new(alloc);
    for receiver in receivers {
        places.push(place_for(resolved, early, &mut table, *receiver))?;
    }
    Ok(places)
}

/// The methods that are selected for these receivers.
pub(crate) fn places_for(
    alloc: Global,
    resolved: &Resolved<'_>,
    receivers: &[u32],
) -> Result<Vec<Option<Place>>, NoMemory>
    requires named { HasSymbols resolved.now.classes.now resolved.now.method }
    requires receivers { (i : ℕ) → i < length receivers.now → slice_index_or receivers.now i 0 < length resolved.now.classes.now }
    requires chains { AreChains resolved.now.classes.now resolved.now.superclasses.now }
    ensures { IfOk result (λ places. places.items ≡ map (λ c.
        (selected_at resolved.now.classes.now resolved.now.of_interface resolved.now.method.place c).place) receivers.now) }
{
    let early = resolved.of_interface || is_overridable(resolved.classes, &resolved.method);
    match decided_each(alloc, resolved, early, receivers)? {
        Some(places) => Ok(places),
        None => tabled_each(alloc, resolved, early, receivers),
    }
}
