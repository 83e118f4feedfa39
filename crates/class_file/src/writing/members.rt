//! Attributes and members as bytes.
ghost use Rattle.std.specs.Prelude.{◌≡◌, ◌<◌, ◌^◌, ◌++◌, length, OnOk};
ghost use Rattle.class_pool.specs.Spelling.{u2};
ghost use Rattle.class_pool.specs.ClassSpelling.{counted, attribute_bytes, member_bytes};
ghost use Rattle.class_pool.specs.Structure.{AreCounted};
ghost use Rattle.class_file.specs.Writing.Room.{IsRoomy, IsRoomyMember};

use crate::writing::numbers::put_u16;
use crate::writing::parts::{bytes_of, put_framed};
use base::NoMemory;
use class_pool::{Attribute, Member};
use std::alloc::Global;

fn put_attribute(alloc: Global, out: &mut Vec<u8>, a: &Attribute) -> Result<(), NoMemory>
    requires { IsRoomy a.now }
    ensures { OnOk result (out.new.items ≡ out.old.items ++ attribute_bytes a.now) }
{
    let body = bytes_of(alloc, &a.body)?;
    put_framed(out, a.name, &body)
}

/// A number of attributes, and the attributes.
pub(crate) fn put_attributes(
    alloc: Global,
    out: &mut Vec<u8>,
    attributes: &[Attribute],
) -> Result<(), NoMemory>
    requires { AreCounted IsRoomy attributes.now }
    ensures { OnOk result (out.new.items ≡ out.old.items ++ counted attribute_bytes attributes.now) }
{
    put_u16(out, attributes.len() as u16)?;
    for a in attributes {
        put_attribute(alloc, out, a)?;
    }
    Ok(())
}

fn put_member(alloc: Global, out: &mut Vec<u8>, m: &Member) -> Result<(), NoMemory>
    requires { IsRoomyMember m.now }
    ensures { OnOk result (out.new.items ≡ out.old.items ++ member_bytes m.now) }
{
    put_u16(out, m.flags)?;
    put_u16(out, m.name)?;
    put_u16(out, m.descriptor)?;
    put_attributes(alloc, out, m.attributes.as_slice())
}

/// A number of members, and the members.
pub(crate) fn put_members(
    alloc: Global,
    out: &mut Vec<u8>,
    members: &[Member],
) -> Result<(), NoMemory>
    requires { AreCounted IsRoomyMember members.now }
    ensures { OnOk result (out.new.items ≡ out.old.items ++ counted member_bytes members.now) }
{
    put_u16(out, members.len() as u16)?;
    for m in members {
        put_member(alloc, out, m)?;
    }
    Ok(())
}

/// A number of indexes, and the indexes.
pub(crate) fn put_indexes(out: &mut Vec<u8>, indexes: &[u16]) -> Result<(), NoMemory>
    requires { length indexes.now < 2 ^ 16 }
    ensures { OnOk result (out.new.items ≡ out.old.items ++ counted u2 indexes.now) }
{
    put_u16(out, indexes.len() as u16)?;
    for index in indexes {
        put_u16(out, *index)?;
    }
    Ok(())
}
