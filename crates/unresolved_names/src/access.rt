//! Access to classes and members (JVM Specification SE 8, 5.4.4), and to final fields (6.5.putfield, 6.5.putstatic).
ghost use Rattle.std.specs.Prelude.{◌≡◌, ◌<◌, length};
ghost use Rattle.class_lookup.specs.Parts.{Signature};
ghost use Rattle.class_lookup.specs.Hierarchy.{is_concrete};
ghost use Rattle.class_lookup.specs.Access.{are_in_one_package, is_accessible_class, is_related, is_writable_field};
ghost use Rattle.program_tables.specs.Core.{is_boot};
ghost use Rattle.program_tables.specs.Unresolved.{is_free};
ghost use Rattle.bytecode_model.specs.Effects.{same_bool};
ghost use Rattle.unresolved_names.specs.Words.{accessible_member};

use base::is_text;
use class_hierarchy::Hierarchy;
use class_lookup::Classes;
use class_lookup::parts::{has_flags, name_of};
use class_pool::Member;
use class_rules::flags::{
    ACC_ABSTRACT, ACC_FINAL, ACC_PRIVATE, ACC_PROTECTED, ACC_PUBLIC, ACC_STATIC,
};
use descriptors::names::{is_class_initializer, is_instance_initializer};

/// Whether the rules on access don't bind the class: it is the one that is run.
pub(crate) fn is_free(classes: &Classes, class: u32) -> bool
    ensures { result ≡ is_free classes.now class }
{
    class < classes.class_count() && is_text(name_of(classes.class(class)), b"jop/Boot")
}

/// Whether the second class is public or of the package of the first.
pub(crate) fn is_accessible_class(classes: &Classes, class: u32, other: u32) -> bool
    ensures { result ≡ is_accessible_class classes.now class other }
{
    let count = classes.class_count();
    class < count
        && other < count
        && (has_flags(classes.class(other).flags, ACC_PUBLIC)
            || classes.are_in_one_package(class, other))
}

/// Whether there is such a class, and it is neither an abstract class nor an interface.
pub(crate) fn is_concrete(classes: &Classes, class: u32) -> bool
    ensures { result ≡ is_concrete classes.now class }
{
    class < classes.class_count() && !has_flags(classes.class(class).flags, ACC_ABSTRACT)
}

/// Whether the class is the caller, a subclass of it or a superclass of it.
fn is_related(classes: &Hierarchy, caller: u32, class: u32) -> bool
    requires caller { caller < length classes.now }
    requires class { class < length classes.now }
    ensures { result ≡ is_related classes.now caller class }
{
    caller == class || classes.is_subclass(class, caller) || classes.is_subclass(caller, class)
}

/// Whether a member of the class `owner` may be used by the class `caller` through the class `named`.
#[tactic(auto, unfolding(crate::specs::Words::accessible_member))]
pub(crate) fn is_accessible_member(
    classes: &Hierarchy,
    caller: u32,
    named: u32,
    owner: u32,
    member: &Member,
) -> bool
    requires caller { caller < length classes.now }
    requires named { named < length classes.now }
    ensures { result ≡ accessible_member classes.now caller named owner member.now }
{
    if has_flags(member.flags, ACC_PUBLIC) {
        true
    } else if has_flags(member.flags, ACC_PRIVATE) {
        caller == owner
    } else if has_flags(member.flags, ACC_PROTECTED) {
        classes.classes().are_in_one_package(caller, owner)
            || (classes.is_subclass(caller, owner)
                && (has_flags(member.flags, ACC_STATIC) || is_related(classes, caller, named)))
    } else {
        classes.classes().are_in_one_package(caller, owner)
    }
}

/// Whether a member is static exactly where a static one is needed.
pub(crate) fn is_as_needed(needs_static: bool, is_static: bool) -> bool
    ensures { result ≡ same_bool needs_static is_static }
{
    if needs_static { is_static } else { !is_static }
}

/// Whether a field of the class `owner` may be written by a method of this name of the class `caller`.
pub(crate) fn is_writable_field(caller: u32, owner: u32, method: &[u16], field: &Member) -> bool
    ensures { (s : Signature) → s.name ≡ method.now → result ≡ is_writable_field caller owner s field.now }
{
    !has_flags(field.flags, ACC_FINAL)
        || (caller == owner
            && (if has_flags(field.flags, ACC_STATIC) {
                is_class_initializer(method)
            } else {
                is_instance_initializer(method)
            }))
}
