//! Methods (JVM Specification SE 8, 4.3.3, 4.6 and 4.7.3).
ghost use Rattle.std.specs.Prelude.{◌≡◌};
ghost use Rattle.std.specs.List.{list_all};
ghost use Rattle.class_rules.specs.Tests.{takes_words, is_plainly_abstract, is_void, is_right_initializer, has_right_code, is_right_method};

use crate::attributes::{are_named, are_right_bodies, codes_of};
use crate::flags::{
    ACC_ABSTRACT, ACC_FINAL, ACC_INTERFACE, ACC_NATIVE, ACC_PRIVATE, ACC_STATIC, ACC_STRICT,
    ACC_SYNCHRONIZED, has, has_one_access,
};
use crate::forms::{Call, Form, form_at};
use class_pool::{Member, Pool};

/// At most 255 words, with `this`.
fn takes_words(flags: u16, call: Option<Call>) -> bool
    ensures { result ≡ takes_words flags call }
{
    match call {
        Some(call) => u16::from(call.words) + if has(flags, ACC_STATIC) { 0 } else { 1 } <= 255,
        None => false,
    }
}

fn is_plainly_abstract(flags: u16) -> bool
    ensures { result ≡ is_plainly_abstract flags }
{
    !has(flags, ACC_ABSTRACT)
        || !(has(flags, ACC_PRIVATE)
            || has(flags, ACC_STATIC)
            || has(flags, ACC_FINAL)
            || has(flags, ACC_SYNCHRONIZED)
            || has(flags, ACC_NATIVE)
            || has(flags, ACC_STRICT))
}

fn is_void(call: Option<Call>) -> bool
    ensures { result ≡ is_void call }
{
    match call {
        Some(call) => call.is_void,
        None => false,
    }
}

fn is_right_initializer(class_flags: u16, flags: u16, call: Option<Call>) -> bool
    ensures { result ≡ is_right_initializer class_flags flags call }
{
    !has(class_flags, ACC_INTERFACE) && !has(flags, ACC_STATIC) && is_void(call)
}

fn has_right_code(pool: &Pool, m: &Member) -> bool
    ensures { result ≡ has_right_code pool.now m.now }
{
    let attributes = m.attributes.as_slice();
    let has_none = has(m.flags, ACC_ABSTRACT) || has(m.flags, ACC_NATIVE);
    let wanted = if has_none { 0 } else { 1 };
    codes_of(attributes) == wanted && are_right_bodies(pool, attributes)
}

fn is_right_method(pool: &Pool, forms: &[Form], class_flags: u16, m: &Member) -> bool
    ensures { result ≡ is_right_method pool.now forms.now class_flags m.now }
{
    let name = form_at(forms, m.name);
    let call = form_at(forms, m.descriptor).method;
    name.is_method
        && name.has_no_parenthesis
        && takes_words(m.flags, call)
        && has_one_access(m.flags)
        && is_plainly_abstract(m.flags)
        && (!name.is_initializer || is_right_initializer(class_flags, m.flags, call))
        && are_named(pool, m.attributes.as_slice())
        && has_right_code(pool, m)
}

pub(crate) fn are_right_methods(
    pool: &Pool,
    forms: &[Form],
    class_flags: u16,
    members: &[Member],
) -> bool
    ensures { result ≡ list_all (is_right_method pool.now forms.now class_flags) members.now }
{
    for m in members {
        if !is_right_method(pool, forms, class_flags, m) {
            return false;
        }
    }
    true
}
