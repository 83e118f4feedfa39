//! Whether a class file made by hand has bytes: numbers and lengths fit theirs, and the body of an attribute is of
//! its kind (JVM Specification SE 8, 4.1 and 4.5 to 4.7).
ghost use Rattle.std.specs.Prelude.{◌≡◌, ◌↔◌, ◌<◌, ◌^◌, length, IsTrue};
ghost use Rattle.std.specs.List.{flat_map};
ghost use Rattle.class_pool.specs.ClassSpelling.{named_bytes, code_bytes, body_bytes};
ghost use Rattle.class_pool.specs.Structure.{IsHalf, IsHandler, IsNamedInRange, AreCounted, HasCodeRange, HasKind, IsAttribute};
ghost use Rattle.class_pool.specs.Structure.{HasMemberRange, HasPartsInRange};

use base::Items;
use class_pool::kind::{Kind, Owner, kind_of};
use class_pool::{Attribute, Body, ClassFile, Code, Member, Pool};

/// The most that a number of 16 bits and one of 32 bits hold.
const MOST_OF_16: usize = 0xFFFF;

const MOST_OF_32: usize = 0xFFFF_FFFF;

/// The numbers fit by their types, which the proof learns where they are read, here and below.
fn is_handler(handler: &(u16, u16, u16, u16)) -> bool
    ensures { IsTrue result ↔ IsHandler handler.now }
{
    let (_start, _end, _handler, _caught) = *handler;
    true
}

fn are_handlers(handlers: &[(u16, u16, u16, u16)]) -> bool
    ensures { IsTrue result ↔ AreCounted IsHandler handlers.now }
{
    handlers.len() <= MOST_OF_16 && handlers.iter().all(is_handler)
}

fn is_named(attribute: &(u16, Items<u8>)) -> bool
    ensures { IsTrue result ↔ IsNamedInRange attribute.now }
{
    // The contract alone speaks of it.
    let _name = attribute.0;
    attribute.1.as_slice().len() <= MOST_OF_32
}

fn are_named(attributes: &[(u16, Items<u8>)]) -> bool
    ensures { IsTrue result ↔ AreCounted IsNamedInRange attributes.now }
{
    attributes.len() <= MOST_OF_16 && attributes.iter().all(is_named)
}

/// The bytes of all of them.
fn named_length(attributes: &[(u16, Items<u8>)]) -> usize
    requires { AreCounted IsNamedInRange attributes.now }
    ensures { result ≡ length (flat_map named_bytes attributes.now) }
{
    let mut total = 0;
    for (_, bytes) in attributes {
        total += 6 + bytes.as_slice().len();
    }
    total
}

/// Whether the parts of code fit, and all of it fits the length of an attribute.
fn is_code(code: &Code) -> bool
    ensures { IsTrue result ↔ (HasCodeRange code.now × (length (code_bytes code.now) < 2 ^ 32)) }
{
    let (_stack, _locals) = (code.max_stack, code.max_locals);
    let length = code.code.as_slice().len();
    let handlers = code.handlers.as_slice();
    let attributes = code.attributes.as_slice();
    if length > MOST_OF_32 || !are_handlers(handlers) || !are_named(attributes) {
        return false;
    }
    12 + length + 8 * handlers.len() + named_length(attributes) <= MOST_OF_32
}

/// Whether the body is of the kind, and fits the length of an attribute.
fn has_kind(kind: Kind, body: &Body) -> bool
    ensures { IsTrue result ↔ (HasKind kind body.now × (length (body_bytes body.now) < 2 ^ 32)) }
{
    match (kind, body) {
        (Kind::Code, Body::Code(code)) => is_code(code),
        (Kind::ConstantValue, Body::ConstantValue(constant)) => {
            // The contract alone speaks of it.
            let _constant = *constant;
            true
        }
        (Kind::Bytes, Body::Bytes(bytes)) => bytes.as_slice().len() <= MOST_OF_32,
        _ => false,
    }
}

fn is_attribute(owner: Owner, pool: &Pool, attribute: &Attribute) -> bool
    ensures { IsTrue result ↔ IsAttribute owner pool.now attribute.now }
{
    has_kind(kind_of(owner, pool, attribute.name), &attribute.body)
}

fn are_attributes(owner: Owner, pool: &Pool, attributes: &[Attribute]) -> bool
    ensures { IsTrue result ↔ AreCounted (IsAttribute owner pool.now) attributes.now }
{
    attributes.len() <= MOST_OF_16 && attributes.iter().all(|a| is_attribute(owner, pool, a))
}

fn is_member(owner: Owner, pool: &Pool, member: &Member) -> bool
    ensures { IsTrue result ↔ HasMemberRange owner pool.now member.now }
{
    let (_flags, _name, _descriptor) = (member.flags, member.name, member.descriptor);
    are_attributes(owner, pool, member.attributes.as_slice())
}

fn are_members(owner: Owner, pool: &Pool, members: &[Member]) -> bool
    ensures { IsTrue result ↔ AreCounted (HasMemberRange owner pool.now) members.now }
{
    for member in members {
        if !is_member(owner, pool, member) {
            return false;
        }
    }
    members.len() <= MOST_OF_16
}

fn are_indexes(indexes: &[u16]) -> bool
    ensures { IsTrue result ↔ AreCounted IsHalf indexes.now }
{
    indexes.len() <= MOST_OF_16
}

/// Whether what stands behind the pool of a class file has bytes.
pub fn is_inside(class: &ClassFile) -> bool
    ensures { IsTrue result ↔ HasPartsInRange class.now }
{
    let (_flags, _this, _super) = (class.flags, class.this_class, class.super_class);
    are_indexes(class.interfaces.as_slice())
        && are_members(Owner::Field, &class.pool, class.fields.as_slice())
        && are_members(Owner::Method, &class.pool, class.methods.as_slice())
        && are_attributes(Owner::Class, &class.pool, class.attributes.as_slice())
}
