//! Fields that instructions name (JVM Specification SE 8, 5.4.3.2, 5.4.4, 6.5.getfield and the like).
ghost use Rattle.std.specs.Prelude.{◌≡◌};
ghost use Rattle.class_lookup.specs.Parts.{signature_of};
ghost use Rattle.class_lookup.specs.Lookup.{field_at};
ghost use Rattle.program_tables.specs.Unresolved.{needs_static_field, writes_field};
ghost use Rattle.unresolved_names.specs.Causes.{signature_at};
ghost use Rattle.unresolved_names.specs.Words.{field_reason, found_field_reason, usable_field};

use crate::access::{is_accessible_member, is_as_needed, is_free, is_writable_field};
use crate::caller::{Caller, Through};
use crate::names::{is_entry_there, is_field_there, may_name_entry};
use crate::parts::{class_named, field_at, field_found};
use class_hierarchy::Place;
use class_lookup::parts::{has_flags, text_at};
use class_pool::Member;
use class_rules::flags::ACC_STATIC;
use opcodes::mnemonics::{GETSTATIC, PUTFIELD, PUTSTATIC};
use program_tables::Why;

fn needs_static_field(op: u8) -> bool
    ensures { result ≡ needs_static_field op }
{
    op == GETSTATIC || op == PUTSTATIC
}

fn writes_field(op: u8) -> bool
    ensures { result ≡ writes_field op }
{
    op == PUTSTATIC || op == PUTFIELD
}

/// Whether an instruction of the caller's method may use a field, which is named through a class.
#[tactic(auto, using(crate::proofs::ReasonLemmas::field_used))]
fn may_use_field(
    through: &Through<'_>,
    method: &Member,
    op: u8,
    place: Place,
    field: &Member,
) -> bool
    ensures { result ≡ usable_field through.now.caller.now.classes.now through.now.caller.now.namer.number through.now.caller.now.namer.class.now
        (signature_of through.now.caller.now.namer.class.now method.now) op through.now.index place field.now }
{
    let caller = through.caller;
    let classes = caller.classes;
    let number = caller.namer.number;
    if is_free(classes.classes(), number) {
        return true;
    }
    if !through.may_be_named {
        return false;
    }
    if !is_accessible_member(classes, number, through.class, place.class, field) {
        return false;
    }
    if !writes_field(op) {
        return true;
    }
    let name = text_at(&caller.namer.class.pool, method.name);
    is_writable_field(number, place.class, name, field)
}

/// Why a field that is found isn't resolved.
#[tactic(auto, using(crate::proofs::ReasonLemmas::field_judged))]
fn why_field_found(through: &Through<'_>, method: &Member, op: u8, place: Place) -> Option<Why>
    ensures { result ≡ found_field_reason through.now.caller.now.classes.now through.now.caller.now.namer.number through.now.caller.now.namer.class.now
        (signature_of through.now.caller.now.namer.class.now method.now) op through.now.index place (field_at through.now.caller.now.classes.now place) }
{
    let Some(field) = field_at(through.caller.classes.classes(), place) else {
        return Some(Why::NoField);
    };
    if !may_use_field(through, method, op, place, field) {
        Some(Why::NotAccessible)
    } else if !is_as_needed(needs_static_field(op), has_flags(field.flags, ACC_STATIC)) {
        Some(Why::WrongKind)
    } else {
        None
    }
}

/// Why the field isn't resolved that an instruction of the caller's method names through a Class entry, by the indexes of its
/// name and descriptor.
#[tactic(auto, unfolding(crate::specs::Words::field_reason))]
pub(crate) fn why_field(
    caller: &Caller<'_>,
    method: &Member,
    op: u8,
    index: u16,
    name: u16,
    descriptor: u16,
) -> Option<Why>
    ensures { result ≡ field_reason caller.now.classes.now caller.now.namer.number caller.now.namer.class.now
        (signature_of caller.now.namer.class.now method.now) op index (signature_at caller.now.namer.class.now.pool name descriptor) }
{
    let namer = &caller.namer;
    if !is_entry_there(namer, index) || !is_field_there(namer, descriptor) {
        return Some(Why::NoClass);
    }
    let Some(class) = class_named(namer, index) else {
        return Some(Why::NoField);
    };
    let Some(place) = field_found(caller, class, name, descriptor) else {
        return Some(Why::NoField);
    };
    let through = Through {
        caller,
        index,
        class,
        may_be_named: may_name_entry(namer, index),
    };
    why_field_found(&through, method, op, place)
}
