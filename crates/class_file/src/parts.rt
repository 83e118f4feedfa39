//! The parts of a class file at the front of bytes, each with the bytes behind it.
ghost use Rattle.std.specs.Prelude.{◌≡◌};
ghost use Rattle.base.specs.Reading.{Gives};
ghost use Rattle.class_pool.specs.Reading.{number_in, front_in};
ghost use Rattle.class_file.specs.InsideReading.{many_in, counted_in, handler_in, named_in, code_in, body_in};

use base::{FormatFault, Items};
use class_pool::kind::Kind;
use class_pool::numbers::{u16_at, u32_at};
use class_pool::{Body, Code};
use std::alloc::Global;

/// A name, a length and so many bytes, which are lent.
#[derive(Clone, Copy)]
pub(crate) struct Named<'a> {
    pub name: u16,
    pub bytes: &'a [u8],
}

fn front_at(bytes: &[u8], length: u32) -> Result<(&[u8], &[u8]), FormatFault>
    ensures { Gives (λ x. (x.0.now, x.1.now)) result (front_in length bytes.now) }
{
    let length = length as usize;
    if bytes.len() < length {
        return Err(FormatFault::Bad);
    }
    Ok(bytes.split_at(length))
}

#[tactic(auto, unfolding(crate::specs::InsideReading::handler_in))]
fn handler_at(bytes: &[u8]) -> Result<((u16, u16, u16, u16), &[u8]), FormatFault>
    ensures { Gives (λ x. (x.0, x.1.now)) result (handler_in bytes.now) }
{
    let (start, rest) = u16_at(bytes)?;
    let (end, rest) = u16_at(rest)?;
    let (handler, rest) = u16_at(rest)?;
    let (caught, rest) = u16_at(rest)?;
    Ok(((start, end, handler, caught), rest))
}

fn many_handlers(
    alloc: Global,
    count: u16,
    bytes: &[u8],
) -> Result<(Vec<(u16, u16, u16, u16)>, &[u8]), FormatFault>
    ensures { Gives (λ x. (x.0.items, x.1.now)) result (many_in handler_in count bytes.now) }
{
    let mut handlers = Vec::new(alloc);
    let mut rest = bytes;
    for _ in 0..count {
        let (handler, after) = handler_at(rest)?;
        handlers.push(handler)?;
        rest = after;
    }
    Ok((handlers, rest))
}

#[tactic(auto, unfolding(crate::specs::InsideReading::counted_in))]
fn handlers_at(
    alloc: Global,
    bytes: &[u8],
) -> Result<(Items<(u16, u16, u16, u16)>, &[u8]), FormatFault>
    ensures { Gives (λ x. (x.0, x.1.now)) result (counted_in handler_in bytes.now) }
{
    let (count, rest) = u16_at(bytes)?;
    let (handlers, rest) = many_handlers(alloc, count, rest)?;
    Ok((Items::new(handlers), rest))
}

#[tactic(auto, unfolding(crate::specs::InsideReading::named_in))]
pub(crate) fn named_at(bytes: &[u8]) -> Result<(Named<'_>, &[u8]), FormatFault>
    ensures { Gives (λ x. ((x.0.name, x.0.bytes.now), x.1.now)) result (named_in bytes.now) }
{
    let (name, rest) = u16_at(bytes)?;
    let (length, rest) = u32_at(rest)?;
    let (bytes, rest) = front_at(rest, length)?;
    Ok((Named { name, bytes }, rest))
}

/// The same, with bytes of its own.
fn own_named_at(alloc: Global, bytes: &[u8]) -> Result<((u16, Items<u8>), &[u8]), FormatFault>
    ensures { Gives (λ x. (x.0, x.1.now)) result (named_in bytes.now) }
{
    let (named, rest) = named_at(bytes)?;
    let content = Vec::from_slice(alloc, named.bytes)?;
    Ok(((named.name, Items::new(content)), rest))
}

fn many_named(
    alloc: Global,
    count: u16,
    bytes: &[u8],
) -> Result<(Vec<(u16, Items<u8>)>, &[u8]), FormatFault>
    ensures { Gives (λ x. (x.0.items, x.1.now)) result (many_in named_in count bytes.now) }
{
    let mut all = Vec::new(alloc);
    let mut rest = bytes;
    for _ in 0..count {
        let (named, after) = own_named_at(alloc, rest)?;
        all.push(named)?;
        rest = after;
    }
    Ok((all, rest))
}

#[tactic(auto, unfolding(crate::specs::InsideReading::counted_in))]
fn all_named_at(
    alloc: Global,
    bytes: &[u8],
) -> Result<(Items<(u16, Items<u8>)>, &[u8]), FormatFault>
    ensures { Gives (λ x. (x.0, x.1.now)) result (counted_in named_in bytes.now) }
{
    let (count, rest) = u16_at(bytes)?;
    let (all, rest) = many_named(alloc, count, rest)?;
    Ok((Items::new(all), rest))
}

#[tactic(auto, unfolding(crate::specs::InsideReading::code_in))]
fn code_at(alloc: Global, bytes: &[u8]) -> Result<(Code, &[u8]), FormatFault>
    ensures { Gives (λ x. (x.0, x.1.now)) result (code_in bytes.now) }
{
    let (max_stack, rest) = u16_at(bytes)?;
    let (max_locals, rest) = u16_at(rest)?;
    let (length, rest) = u32_at(rest)?;
    let (code, rest) = front_at(rest, length)?;
    let code = Items::new(Vec::from_slice(alloc, code)?);
    let (handlers, rest) = handlers_at(alloc, rest)?;
    let (attributes, rest) = all_named_at(alloc, rest)?;
    let code = Code {
        max_stack,
        max_locals,
        code,
        handlers,
        attributes,
    };
    Ok((code, rest))
}

/// All of the bytes as the body of an attribute.
#[tactic(auto, unfolding(crate::specs::InsideReading::body_in))]
pub(crate) fn body_of(alloc: Global, kind: Kind, bytes: &[u8]) -> Result<Body, FormatFault>
    ensures { Gives (λ x. x) result (body_in kind bytes.now) }
{
    match kind {
        Kind::Code => {
            let (code, rest) = code_at(alloc, bytes)?;
            if !rest.is_empty() {
                return Err(FormatFault::Bad);
            }
            Ok(Body::Code(code))
        }
        Kind::ConstantValue => {
            let (constant, rest) = u16_at(bytes)?;
            if !rest.is_empty() {
                return Err(FormatFault::Bad);
            }
            Ok(Body::ConstantValue(constant))
        }
        Kind::Bytes => Ok(Body::Bytes(Items::new(Vec::from_slice(alloc, bytes)?))),
    }
}
