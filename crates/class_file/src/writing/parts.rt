//! Code and the other bodies of attributes as bytes.
ghost use Rattle.std.specs.Prelude.{◌≡◌, ◌<◌, ◌^◌, ◌++◌, length, OnOk, IfOk};
ghost use Rattle.std.specs.List.{flat_map, AllByRecursion};
ghost use Rattle.class_pool.specs.ClassSpelling.{counted, handler_bytes, framed, named_bytes, code_bytes, body_bytes};
ghost use Rattle.class_pool.specs.Structure.{AreCounted, IsHandler, IsNamedInRange, HasCodeRange};
ghost use Rattle.class_file.specs.Writing.Room.{HasRoom};

use crate::writing::numbers::{put_u16, put_u32};
use base::{Items, NoMemory};
use class_pool::{Body, Code};
use std::alloc::Global;

fn put_handler(out: &mut Vec<u8>, h: &(u16, u16, u16, u16)) -> Result<(), NoMemory>
    ensures { OnOk result (out.new.items ≡ out.old.items ++ handler_bytes h.now) }
{
    put_u16(out, h.0)?;
    put_u16(out, h.1)?;
    put_u16(out, h.2)?;
    put_u16(out, h.3)
}

fn put_handlers(out: &mut Vec<u8>, handlers: &[(u16, u16, u16, u16)]) -> Result<(), NoMemory>
    requires { length handlers.now < 2 ^ 16 }
    ensures { OnOk result (out.new.items ≡ out.old.items ++ counted handler_bytes handlers.now) }
{
    put_u16(out, handlers.len() as u16)?;
    for h in handlers {
        put_handler(out, h)?;
    }
    Ok(())
}

/// A name, a length and so many bytes.
pub(crate) fn put_framed(out: &mut Vec<u8>, name: u16, bytes: &[u8]) -> Result<(), NoMemory>
    requires { length bytes.now < 2 ^ 32 }
    ensures { OnOk result (out.new.items ≡ out.old.items ++ framed name bytes.now) }
{
    put_u16(out, name)?;
    put_u32(out, bytes.len() as u32)?;
    out.extend_from_slice(bytes)?;
    Ok(())
}

fn put_named(out: &mut Vec<u8>, a: &(u16, Items<u8>)) -> Result<(), NoMemory>
    requires { length a.now.1 < 2 ^ 32 }
    ensures { OnOk result (out.new.items ≡ out.old.items ++ named_bytes a.now) }
{
    put_framed(out, a.0, a.1.as_slice())
}

fn put_all_named(out: &mut Vec<u8>, all: &[(u16, Items<u8>)]) -> Result<(), NoMemory>
    requires { AreCounted IsNamedInRange all.now }
    ensures { OnOk result (out.new.items ≡ out.old.items ++ counted named_bytes all.now) }
{
    put_u16(out, all.len() as u16)?;
    for a in all {
        put_named(out, a)?;
    }
    Ok(())
}

fn put_code(out: &mut Vec<u8>, code: &Code) -> Result<(), NoMemory>
    requires { HasCodeRange code.now }
    ensures { OnOk result (out.new.items ≡ out.old.items ++ code_bytes code.now) }
{
    let bytes = code.code.as_slice();
    put_u16(out, code.max_stack)?;
    put_u16(out, code.max_locals)?;
    put_u32(out, bytes.len() as u32)?;
    out.extend_from_slice(bytes)?;
    put_handlers(out, code.handlers.as_slice())?;
    put_all_named(out, code.attributes.as_slice())
}

/// The body of an attribute.
pub(crate) fn bytes_of(alloc: Global, body: &Body) -> Result<Vec<u8>, NoMemory>
    requires { HasRoom body.now }
    ensures { IfOk result (λ bytes. bytes.items ≡ body_bytes body.now) }
{
    let mut bytes = Vec::new(alloc);
    match body {
        Body::Code(code) => put_code(&mut bytes, code)?,
        Body::ConstantValue(constant) => put_u16(&mut bytes, *constant)?,
        Body::Bytes(content) => bytes.extend_from_slice(content.as_slice())?,
    }
    Ok(bytes)
}
