//! Attributes and members at the front of bytes.
ghost use Rattle.std.specs.Prelude.{◌≡◌, IfOk, MatchResult};
ghost use Rattle.base.specs.Reading.{Gives};
ghost use Rattle.base.specs.declared.fault.FormatFault.TheVariants.{NoMemory};
ghost use Rattle.class_pool.specs.declared.class.ClassFile.{ClassFile};
ghost use Rattle.class_file.specs.InsideGrammar.{IsInsideOf};
ghost use Rattle.class_file.specs.InsideReading.{many_in, counted_in, attribute_in, member_in, identity_in, members_in, inside_in};
ghost use Rattle.class_pool.specs.Reading.{number_in};

use crate::parts::{body_of, named_at};
use base::{FormatFault, Items};
use class_pool::kind::{Owner, kind_of};
use class_pool::numbers::u16_at;
use class_pool::{Attribute, ClassFile, Member, Pool};
use std::alloc::Global;

#[tactic(auto, unfolding(crate::specs::InsideReading::attribute_in))]
fn attribute_at<'a>(
    alloc: Global,
    owner: Owner,
    pool: &Pool,
    bytes: &'a [u8],
) -> Result<(Attribute, &'a [u8]), FormatFault>
    ensures { Gives (λ x. (x.0, x.1.now)) result (attribute_in owner pool.now bytes.now) }
{
    let (named, rest) = named_at(bytes)?;
    let name = named.name;
    let body = body_of(alloc, kind_of(owner, pool, name), named.bytes)?;
    Ok((Attribute { name, body }, rest))
}

fn many_attributes<'a>(
    alloc: Global,
    owner: Owner,
    pool: &Pool,
    count: u16,
    bytes: &'a [u8],
) -> Result<(Vec<Attribute>, &'a [u8]), FormatFault>
    ensures { Gives (λ x. (x.0.items, x.1.now)) result (many_in (attribute_in owner pool.now) count bytes.now) }
{
    let mut attributes = Vec::new(alloc);
    let mut rest = bytes;
    for _ in 0..count {
        let (attribute, after) = attribute_at(alloc, owner, pool, rest)?;
        attributes.push(attribute)?;
        rest = after;
    }
    Ok((attributes, rest))
}

/// A number of attributes, and the attributes.
#[tactic(auto, unfolding(crate::specs::InsideReading::counted_in))]
pub(crate) fn attributes_at<'a>(
    alloc: Global,
    owner: Owner,
    pool: &Pool,
    bytes: &'a [u8],
) -> Result<(Items<Attribute>, &'a [u8]), FormatFault>
    ensures { Gives (λ x. (x.0, x.1.now)) result (counted_in (attribute_in owner pool.now) bytes.now) }
{
    let (count, rest) = u16_at(bytes)?;
    let (attributes, rest) = many_attributes(alloc, owner, pool, count, rest)?;
    Ok((Items::new(attributes), rest))
}

#[tactic(auto, unfolding(crate::specs::InsideReading::member_in))]
fn member_at<'a>(
    alloc: Global,
    owner: Owner,
    pool: &Pool,
    bytes: &'a [u8],
) -> Result<(Member, &'a [u8]), FormatFault>
    ensures { Gives (λ x. (x.0, x.1.now)) result (member_in owner pool.now bytes.now) }
{
    let (flags, rest) = u16_at(bytes)?;
    let (name, rest) = u16_at(rest)?;
    let (descriptor, rest) = u16_at(rest)?;
    let (attributes, rest) = attributes_at(alloc, owner, pool, rest)?;
    let member = Member {
        flags,
        name,
        descriptor,
        attributes,
    };
    Ok((member, rest))
}

fn many_members<'a>(
    alloc: Global,
    owner: Owner,
    pool: &Pool,
    count: u16,
    bytes: &'a [u8],
) -> Result<(Vec<Member>, &'a [u8]), FormatFault>
    ensures { Gives (λ x. (x.0.items, x.1.now)) result (many_in (member_in owner pool.now) count bytes.now) }
{
    let mut members = Vec::new(alloc);
    let mut rest = bytes;
    for _ in 0..count {
        let (member, after) = member_at(alloc, owner, pool, rest)?;
        members.push(member)?;
        rest = after;
    }
    Ok((members, rest))
}

/// A number of members, and the members.
#[tactic(auto, unfolding(crate::specs::InsideReading::counted_in))]
pub(crate) fn members_at<'a>(
    alloc: Global,
    owner: Owner,
    pool: &Pool,
    bytes: &'a [u8],
) -> Result<(Items<Member>, &'a [u8]), FormatFault>
    ensures { Gives (λ x. (x.0, x.1.now)) result (counted_in (member_in owner pool.now) bytes.now) }
{
    let (count, rest) = u16_at(bytes)?;
    let (members, rest) = many_members(alloc, owner, pool, count, rest)?;
    Ok((Items::new(members), rest))
}

fn many_indexes(alloc: Global, count: u16, bytes: &[u8]) -> Result<(Vec<u16>, &[u8]), FormatFault>
    ensures { Gives (λ x. (x.0.items, x.1.now)) result (many_in (number_in 2) count bytes.now) }
{
    let mut indexes = Vec::new(alloc);
    let mut rest = bytes;
    for _ in 0..count {
        let (index, after) = u16_at(rest)?;
        indexes.push(index)?;
        rest = after;
    }
    Ok((indexes, rest))
}

#[tactic(auto, unfolding(crate::specs::InsideReading::counted_in))]
fn indexes_at(alloc: Global, bytes: &[u8]) -> Result<(Items<u16>, &[u8]), FormatFault>
    ensures { Gives (λ x. (x.0, x.1.now)) result (counted_in (number_in 2) bytes.now) }
{
    let (count, rest) = u16_at(bytes)?;
    let (indexes, rest) = many_indexes(alloc, count, rest)?;
    Ok((Items::new(indexes), rest))
}

/// What a class is.
#[derive(Drop)]
pub struct Identity {
    pub flags: u16,
    pub this_class: u16,
    pub super_class: u16,
    pub interfaces: Items<u16>,
}

/// What a class has.
#[derive(Drop)]
pub struct Members {
    pub fields: Items<Member>,
    pub methods: Items<Member>,
    pub attributes: Items<Attribute>,
}

#[tactic(auto, unfolding(crate::specs::InsideReading::identity_in))]
fn identity_at(alloc: Global, bytes: &[u8]) -> Result<(Identity, &[u8]), FormatFault>
    ensures { Gives (λ x. (x.0, x.1.now)) result (identity_in bytes.now) }
{
    let (flags, rest) = u16_at(bytes)?;
    let (this_class, rest) = u16_at(rest)?;
    let (super_class, rest) = u16_at(rest)?;
    let (interfaces, rest) = indexes_at(alloc, rest)?;
    let identity = Identity {
        flags,
        this_class,
        super_class,
        interfaces,
    };
    Ok((identity, rest))
}

#[tactic(auto, unfolding(crate::specs::InsideReading::members_in))]
fn parts_of<'a>(
    alloc: Global,
    pool: &Pool,
    bytes: &'a [u8],
) -> Result<(Members, &'a [u8]), FormatFault>
    ensures { Gives (λ x. (x.0, x.1.now)) result (members_in pool.now bytes.now) }
{
    let (fields, rest) = members_at(alloc, Owner::Field, pool, bytes)?;
    let (methods, rest) = members_at(alloc, Owner::Method, pool, rest)?;
    let (attributes, rest) = attributes_at(alloc, Owner::Class, pool, rest)?;
    let members = Members {
        fields,
        methods,
        attributes,
    };
    Ok((members, rest))
}

/// What stands behind the pool of a class file, all of the bytes.
#[tactic(auto, unfolding(crate::specs::InsideReading::inside_in))]
fn whole_inside(
    alloc: Global,
    minor: u16,
    major: u16,
    pool: Pool,
    bytes: &[u8],
) -> Result<ClassFile, FormatFault>
    ensures { Gives (λ x. x) result (inside_in minor major pool bytes.now) }
{
    let (identity, rest) = identity_at(alloc, bytes)?;
    let (members, rest) = parts_of(alloc, &pool, rest)?;
    if !rest.is_empty() {
        return Err(FormatFault::Bad);
    }
    Ok(ClassFile {
        minor,
        major,
        pool,
        flags: identity.flags,
        this_class: identity.this_class,
        super_class: identity.super_class,
        interfaces: identity.interfaces,
        fields: members.fields,
        methods: members.methods,
        attributes: members.attributes,
    })
}

/// Reads what stands behind the pool of a class file of these versions, which has to be all of the bytes.
pub fn inside_of(
    alloc: Global,
    minor: u16,
    major: u16,
    pool: Pool,
    bytes: &[u8],
) -> Result<ClassFile, FormatFault>
    ensures found { IfOk result (IsInsideOf minor major pool bytes.now) }
    ensures only { (c : ClassFile) → IsInsideOf minor major pool bytes.now c → MatchResult result (λ d. d ≡ c) (λ fault. fault ≡ NoMemory) }
{
    whole_inside(alloc, minor, major, pool, bytes)
}
