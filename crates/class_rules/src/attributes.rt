//! Attributes and code (JVM Specification SE 8, 4.7).
ghost use Rattle.std.specs.Prelude.{◌≡◌, count_by};
ghost use Rattle.std.specs.List.{list_all};
ghost use Rattle.class_pool.specs.Grammar.{entry_at, is_utf8};
ghost use Rattle.class_rules.specs.Tests.{are_named, is_code, is_constant_value, catches_class, is_frame_table, is_right_code, is_right_body};

use crate::pool::{is_class, is_utf8};
use base::Items;
use class_pool::kind::is_named;
use class_pool::{Attribute, Body, Code, Pool};

pub(crate) fn are_named(pool: &Pool, attributes: &[Attribute]) -> bool
    ensures { result ≡ are_named pool.now attributes.now }
{
    for a in attributes {
        if !is_utf8(pool, a.name) {
            return false;
        }
    }
    true
}

fn is_code(a: &Attribute) -> bool
    ensures { result ≡ is_code a.now }
{
    matches!(a.body, Body::Code(_))
}

fn is_constant_value(a: &Attribute) -> bool
    ensures { result ≡ is_constant_value a.now }
{
    matches!(a.body, Body::ConstantValue(_))
}

pub(crate) fn codes_of(attributes: &[Attribute]) -> usize
    ensures { result ≡ count_by is_code attributes.now }
{
    let mut count = 0;
    for a in attributes {
        if is_code(a) {
            count += 1;
        }
    }
    count
}

pub(crate) fn constants_of(attributes: &[Attribute]) -> usize
    ensures { result ≡ count_by is_constant_value attributes.now }
{
    let mut count = 0;
    for a in attributes {
        if is_constant_value(a) {
            count += 1;
        }
    }
    count
}

/// Whether the class of an exception entry is 0 or a class.
fn catches_class(pool: &Pool, caught: u16) -> bool
    ensures { result ≡ catches_class pool.now caught }
{
    caught == 0 || is_class(pool, caught)
}

fn all_catch_classes(pool: &Pool, handlers: &[(u16, u16, u16, u16)]) -> bool
    ensures { result ≡ list_all (λ h. catches_class pool.now h.3) handlers.now }
{
    for h in handlers {
        if !catches_class(pool, h.3) {
            return false;
        }
    }
    true
}

fn all_have_names(pool: &Pool, attributes: &[(u16, Items<u8>)]) -> bool
    ensures { result ≡ list_all (λ a. is_utf8 (entry_at pool.now a.0)) attributes.now }
{
    for a in attributes {
        if !is_utf8(pool, a.0) {
            return false;
        }
    }
    true
}

fn is_frame_table(pool: &Pool, a: &(u16, Items<u8>)) -> bool
    ensures { result ≡ is_frame_table pool.now a.now }
{
    is_named(pool, a.0, b"StackMapTable")
}

fn frame_tables(pool: &Pool, attributes: &[(u16, Items<u8>)]) -> usize
    ensures { result ≡ count_by (is_frame_table pool.now) attributes.now }
{
    let mut count = 0;
    for a in attributes {
        if is_frame_table(pool, a) {
            count += 1;
        }
    }
    count
}

/// Whether a method may have the code.
fn is_right_code(pool: &Pool, code: &Code) -> bool
    ensures { result ≡ is_right_code pool.now code.now }
{
    let length = code.code.as_slice().len();
    let attributes = code.attributes.as_slice();
    1 <= length
        && length <= 65535
        && all_catch_classes(pool, code.handlers.as_slice())
        && all_have_names(pool, attributes)
        && frame_tables(pool, attributes) <= 1
}

fn is_right_body(pool: &Pool, body: &Body) -> bool
    ensures { result ≡ is_right_body pool.now body.now }
{
    match body {
        Body::Code(code) => is_right_code(pool, code),
        _ => true,
    }
}

pub(crate) fn are_right_bodies(pool: &Pool, attributes: &[Attribute]) -> bool
    ensures { result ≡ list_all (λ a. is_right_body pool.now a.body) attributes.now }
{
    for a in attributes {
        if !is_right_body(pool, &a.body) {
            return false;
        }
    }
    true
}
