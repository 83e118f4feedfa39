//! Methods that instructions name (JVM Specification SE 8, 5.4.3.3, 5.4.3.4, 5.4.4, 6.5.invokevirtual and the like).
ghost use Rattle.std.specs.Prelude.{◌≡◌, ◌==◌, ◌||◌, not};
ghost use Rattle.class_lookup.specs.Parts.{Signature, is_abstract, is_private};
ghost use Rattle.class_lookup.specs.Lookup.{method_at};
ghost use Rattle.class_lookup.specs.Selection.{is_method_with};
ghost use Rattle.program_tables.specs.Unresolved.{calls_no_private, is_callable_name};
ghost use Rattle.unresolved_names.specs.Causes.{signature_at};
ghost use Rattle.unresolved_names.specs.Words.{found_method_reason, method_reason, right_method, rightly_named, rightly_special, usable_method};

use crate::access::{is_accessible_member, is_as_needed, is_free};
use crate::caller::{Caller, Through};
use crate::names::{is_entry_there, is_method_there, may_name_entry};
use crate::parts::{class_named, method_found};
use class_hierarchy::Place;
use class_lookup::parts::{has_flags, text_at};
use class_lookup::{Classes, method_at};
use class_pool::Member;
use class_rules::flags::{ACC_ABSTRACT, ACC_PRIVATE, ACC_STATIC};
use descriptors::names::{is_class_initializer, is_instance_initializer};
use opcodes::mnemonics::{INVOKEINTERFACE, INVOKESPECIAL, INVOKESTATIC, INVOKEVIRTUAL};
use program_tables::Why;

/// Whether there is such a method, and it isn't abstract.
fn is_not_abstract(classes: &Classes, place: Place) -> bool
    ensures { result ≡ is_method_with (λ k. not (is_abstract k)) classes.now place }
{
    match method_at(classes, place) {
        Some(method) => !has_flags(method.flags, ACC_ABSTRACT),
        None => false,
    }
}

/// Whether the caller may use a method, which is named through a class.
#[tactic(auto, using(crate::proofs::ReasonLemmas::method_used))]
fn may_use_method(through: &Through<'_>, place: Place, method: &Member) -> bool
    ensures { result ≡ usable_method through.now.caller.now.classes.now through.now.caller.now.namer.number through.now.caller.now.namer.class.now
        through.now.index place method.now }
{
    let classes = through.caller.classes;
    let number = through.caller.namer.number;
    if is_free(classes.classes(), number) {
        return true;
    }
    if !through.may_be_named {
        return false;
    }
    is_accessible_member(classes, number, through.class, place.class, method)
}

/// Whether a method is named as one of an interface exactly where the class through which it is named is an interface.
#[tactic(auto, unfolding(crate::specs::Words::rightly_named))]
fn is_named_rightly(through: &Through<'_>, of_interface: bool, op: u8) -> bool
    ensures { result ≡ rightly_named through.now.caller.now.classes.now through.now.caller.now.namer.number through.now.caller.now.namer.class.now
        of_interface op through.now.index }
{
    let classes = through.caller.classes.classes();
    let through_interface = classes.is_interface(through.class);
    if of_interface {
        through_interface
    } else {
        (is_free(classes, through.caller.namer.number) && op == INVOKESTATIC) || !through_interface
    }
}

/// Whether invokespecial may name the method, and runs one that isn't abstract.
#[tactic(auto, unfolding(crate::specs::Words::rightly_special))]
fn is_special(through: &Through<'_>, place: Place) -> bool
    ensures { result ≡ rightly_special through.now.caller.now.classes.now through.now.caller.now.namer.number through.now.caller.now.namer.class.now
        through.now.index place }
{
    let classes = through.caller.classes;
    if !is_not_abstract(classes.classes(), place) {
        return false;
    }
    match classes.special(through.caller.namer.number, through.class, place) {
        Some(taken) => is_not_abstract(classes.classes(), taken),
        None => false,
    }
}

/// Whether the instruction, invokevirtual or invokeinterface, names no private method.
fn calls_no_private(op: u8) -> bool
    ensures { result ≡ calls_no_private op }
{
    op == INVOKEVIRTUAL || op == INVOKEINTERFACE
}

/// Whether the method isn't private, where the instruction may name no private one.
fn is_open_to_calls(op: u8, method: &Member) -> bool
    ensures { result ≡ (not (calls_no_private op) || not (is_private method.now)) }
{
    !calls_no_private(op) || !has_flags(method.flags, ACC_PRIVATE)
}

/// Whether the method is one for invokespecial, where this is the instruction.
fn is_special_where_needed(through: &Through<'_>, op: u8, place: Place) -> bool
    ensures { result ≡ (not (op == 183) || rightly_special through.now.caller.now.classes.now through.now.caller.now.namer.number
        through.now.caller.now.namer.class.now through.now.index place) }
{
    op != INVOKESPECIAL || is_special(through, place)
}

/// Whether an instruction may name a method of this name.
fn is_callable_name(classes: &Classes, caller: u32, op: u8, name: &[u16]) -> bool
    ensures { (s : Signature) → s.name ≡ name.now → result ≡ is_callable_name classes.now caller op s }
{
    (!is_instance_initializer(name) || op == INVOKESPECIAL)
        && (!is_class_initializer(name) || is_free(classes, caller))
}

/// Whether the method is of the kind that the instruction needs.
#[tactic(auto, using(crate::proofs::ReasonLemmas::right_kind))]
fn is_right_method(
    through: &Through<'_>,
    of_interface: bool,
    op: u8,
    name: &[u16],
    place: Place,
    method: &Member,
) -> bool
    ensures { (s : Signature) → s.name ≡ name.now → result ≡ right_method through.now.caller.now.classes.now through.now.caller.now.namer.number
        through.now.caller.now.namer.class.now of_interface op through.now.index s place method.now }
{
    if !is_named_rightly(through, of_interface, op) {
        return false;
    }
    if !is_as_needed(op == INVOKESTATIC, has_flags(method.flags, ACC_STATIC)) {
        return false;
    }
    if !is_open_to_calls(op, method) {
        return false;
    }
    if !is_special_where_needed(through, op, place) {
        return false;
    }
    let caller = through.caller;
    is_callable_name(caller.classes.classes(), caller.namer.number, op, name)
}

/// Why a method that is found isn't resolved.
#[tactic(auto, using(crate::proofs::ReasonLemmas::method_judged))]
fn why_method_found(
    through: &Through<'_>,
    of_interface: bool,
    op: u8,
    name: &[u16],
    place: Place,
) -> Option<Why>
    ensures { (s : Signature) → s.name ≡ name.now → result ≡ found_method_reason through.now.caller.now.classes.now through.now.caller.now.namer.number
        through.now.caller.now.namer.class.now of_interface op through.now.index s place (method_at through.now.caller.now.classes.now place) }
{
    let Some(method) = method_at(through.caller.classes.classes(), place) else {
        return Some(Why::NoMethod);
    };
    if !may_use_method(through, place, method) {
        return Some(Why::NotAccessible);
    }
    if is_right_method(through, of_interface, op, name, place, method) {
        None
    } else {
        Some(Why::WrongKind)
    }
}

/// Why the method isn't resolved that an instruction of the caller names through a Class entry, by the indexes of its name and
/// descriptor; `of_interface` says whether it is named as a method of an interface.
#[tactic(auto, unfolding(crate::specs::Words::method_reason))]
pub(crate) fn why_method(
    caller: &Caller<'_>,
    of_interface: bool,
    op: u8,
    index: u16,
    name: u16,
    descriptor: u16,
) -> Option<Why>
    ensures { result ≡ method_reason caller.now.classes.now caller.now.namer.number caller.now.namer.class.now of_interface op index
        (signature_at caller.now.namer.class.now.pool name descriptor) }
{
    let namer = &caller.namer;
    if !is_entry_there(namer, index) || !is_method_there(namer, descriptor) {
        return Some(Why::NoClass);
    }
    let Some(class) = class_named(namer, index) else {
        return Some(Why::NoMethod);
    };
    let Some(place) = method_found(caller, class, name, descriptor) else {
        return Some(Why::NoMethod);
    };
    let through = Through {
        caller,
        index,
        class,
        may_be_named: may_name_entry(namer, index),
    };
    let name = text_at(&namer.class.pool, name);
    why_method_found(&through, of_interface, op, name, place)
}
