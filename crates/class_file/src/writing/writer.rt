//! Whole class files as bytes, and the laws of reading again.
ghost use Rattle.std.specs.Prelude.{◌≡◌, ◌++◌, List, ℕ, OnOk, IfOk};
ghost use Rattle.class_pool.specs.declared.class.ClassFile.{ClassFile};
ghost use Rattle.class_pool.specs.ClassSpelling.{class_bytes, header_bytes, identity_bytes, members_bytes};
ghost use Rattle.class_rules.specs.Grammar.{IsClass, IsClassOf};

use crate::laws::one_class;
use crate::writing::members::{put_attributes, put_indexes, put_members};
use crate::writing::numbers::{put_u16, put_u32};
use crate::writing::pool::put_pool;
use base::NoMemory;
use class_pool::ClassFile;
use std::alloc::Global;

fn put_header(out: &mut Vec<u8>, minor: u16, major: u16) -> Result<(), NoMemory>
    ensures { OnOk result (out.new.items ≡ out.old.items ++ header_bytes minor major) }
{
    put_u32(out, 0xCAFEBABE)?;
    put_u16(out, minor)?;
    put_u16(out, major)
}

fn put_identity(out: &mut Vec<u8>, class: &ClassFile) -> Result<(), NoMemory>
    requires { IsClass class.now }
    ensures { OnOk result (out.new.items ≡ out.old.items ++ identity_bytes class.now) }
{
    put_u16(out, class.flags)?;
    put_u16(out, class.this_class)?;
    put_u16(out, class.super_class)?;
    put_indexes(out, class.interfaces.as_slice())
}

fn put_inside(alloc: Global, out: &mut Vec<u8>, class: &ClassFile) -> Result<(), NoMemory>
    requires { IsClass class.now }
    ensures { OnOk result (out.new.items ≡ out.old.items ++ members_bytes class.now) }
{
    put_members(alloc, out, class.fields.as_slice())?;
    put_members(alloc, out, class.methods.as_slice())?;
    put_attributes(alloc, out, class.attributes.as_slice())
}

/// The one spelling of a class file.
pub fn write_class(alloc: Global, class: &ClassFile) -> Result<Vec<u8>, NoMemory>
    requires { IsClass class.now }
    ensures { IfOk result (λ bytes. IsClassOf bytes.items class.now) }
{
    let mut out = Vec::new(alloc);
    put_header(&mut out, class.minor, class.major)?;
    put_pool(alloc, &mut out, &class.pool)?;
    put_identity(&mut out, class)?;
    put_inside(alloc, &mut out, class)?;
    Ok(out)
}

/// The law that a class file is read again as it was written, and written as it was read: two class files of the
/// same bytes are one, and two spellings of a class file are one.
pub fn read_again()
    ensures value { (bytes : List ℕ) (c d : ClassFile) → IsClassOf bytes c → IsClassOf bytes d → c ≡ d }
    ensures bytes { (c : ClassFile) (xs ys : List ℕ) → IsClassOf xs c → IsClassOf ys c → xs ≡ ys }
{
    one_class();
}
