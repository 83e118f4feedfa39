//! Fields and their constants (JVM Specification SE 8, 4.5 and 4.7.2).
ghost use Rattle.std.specs.Prelude.{◌≡◌};
ghost use Rattle.std.specs.List.{list_all};
ghost use Rattle.std.specs.Option.{option_copied};
ghost use Rattle.class_pool.specs.Grammar.{entry_at};
ghost use Rattle.class_rules.specs.Tests.{is_interface_field, fits_constant, is_constant, fits_field, is_right_constant, is_right_field};

use crate::attributes::{are_named, constants_of};
use crate::flags::{ACC_FINAL, ACC_INTERFACE, ACC_PUBLIC, ACC_STATIC, has, has_one_access};
use crate::forms::{Constant, Form, form_at};
use class_pool::{Attribute, Body, Entry, Member, Pool};

fn is_interface_field(class_flags: u16, flags: u16) -> bool
    ensures { result ≡ is_interface_field class_flags flags }
{
    !has(class_flags, ACC_INTERFACE)
        || (has(flags, ACC_PUBLIC) && has(flags, ACC_STATIC) && has(flags, ACC_FINAL))
}

/// Whether the entry is a constant of the kind.
fn fits_constant(pool: &Pool, constant: Constant, index: u16) -> bool
    ensures { result ≡ fits_constant constant (entry_at pool.now index) }
{
    let Some(entry) = entry_of(pool, index) else {
        return false;
    };
    match constant {
        Constant::Integer => matches!(entry, Entry::Integer(_)),
        Constant::Float => matches!(entry, Entry::Float(_)),
        Constant::Long => matches!(entry, Entry::Long(_)),
        Constant::Double => matches!(entry, Entry::Double(_)),
        Constant::Text => matches!(entry, Entry::Text(_)),
    }
}

fn entry_of(pool: &Pool, index: u16) -> Option<&Entry>
    ensures { option_copied result ≡ entry_at pool.now index }
{
    if index == 0 {
        return None;
    }
    pool.entries().get(usize::from(index - 1))
}

fn is_constant(pool: &Pool, index: u16) -> bool
    ensures { result ≡ is_constant (entry_at pool.now index) }
{
    fits_constant(pool, Constant::Integer, index)
        || fits_constant(pool, Constant::Float, index)
        || fits_constant(pool, Constant::Long, index)
        || fits_constant(pool, Constant::Double, index)
        || fits_constant(pool, Constant::Text, index)
}

fn fits_field(pool: &Pool, constant: Option<Constant>, index: u16) -> bool
    ensures { result ≡ fits_field constant (entry_at pool.now index) }
{
    match constant {
        Some(constant) => fits_constant(pool, constant, index),
        None => false,
    }
}

/// Whether a field of these flags, of a type of this constant, may have the body.
fn is_right_constant(pool: &Pool, flags: u16, constant: Option<Constant>, body: &Body) -> bool
    ensures { result ≡ is_right_constant pool.now flags constant body.now }
{
    match body {
        Body::ConstantValue(index) => {
            if has(flags, ACC_STATIC) {
                fits_field(pool, constant, *index)
            } else {
                is_constant(pool, *index)
            }
        }
        _ => true,
    }
}

fn are_right_constants(
    pool: &Pool,
    flags: u16,
    constant: Option<Constant>,
    attributes: &[Attribute],
) -> bool
    ensures { result ≡ list_all (λ a. is_right_constant pool.now flags constant a.body) attributes.now }
{
    for a in attributes {
        if !is_right_constant(pool, flags, constant, &a.body) {
            return false;
        }
    }
    true
}

fn is_right_field(pool: &Pool, forms: &[Form], class_flags: u16, m: &Member) -> bool
    ensures { result ≡ is_right_field pool.now forms.now class_flags m.now }
{
    let attributes = m.attributes.as_slice();
    let descriptor = form_at(forms, m.descriptor);
    form_at(forms, m.name).is_unqualified
        && descriptor.is_field
        && has_one_access(m.flags)
        && is_interface_field(class_flags, m.flags)
        && are_named(pool, attributes)
        && constants_of(attributes) <= 1
        && are_right_constants(pool, m.flags, descriptor.constant, attributes)
}

pub(crate) fn are_right_fields(
    pool: &Pool,
    forms: &[Form],
    class_flags: u16,
    members: &[Member],
) -> bool
    ensures { result ≡ list_all (is_right_field pool.now forms.now class_flags) members.now }
{
    for m in members {
        if !is_right_field(pool, forms, class_flags, m) {
            return false;
        }
    }
    true
}
