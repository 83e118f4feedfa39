//! The classes that a StackMapTable names (JVM Specification SE 8, 4.7.4).
ghost use Rattle.std.specs.Prelude.{◌≡◌, ◌≤◌, ◌<◌, ◌-◌, IfOk};
ghost use Rattle.std.specs.List.{list_all};
ghost use Rattle.base.specs.Reading.{Gives};
ghost use Rattle.class_pool.specs.Grammar.{entry_at, is_class};
ghost use Rattle.program_tables.specs.FrameClasses.{many, type_in, counted, full_in, frame_in, frame_classes, classes_in_frames};
ghost use Rattle.unresolved_names.specs.Frames.{index_in, place_in, change_in};

use base::{FormatFault, NoMemory};
use class_pool::numbers::{u8_at, u16_at};
use class_pool::{Code, Pool};
use std::alloc::Global;

/// One index and what stands behind it.
fn index_at(alloc: Global, bytes: &[u8]) -> Result<(Vec<u16>, &[u8]), FormatFault>
    ensures { Gives (λ x. (x.0.items, x.1.now)) result (index_in bytes.now) }
{
    let (index, rest) = u16_at(bytes)?;
    Ok((vec![in alloc; index]?, rest))
}

/// A place and what stands behind it.
fn place_at(alloc: Global, bytes: &[u8]) -> Result<(Vec<u16>, &[u8]), FormatFault>
    ensures { Gives (λ x. (x.0.items, x.1.now)) result (place_in bytes.now) }
{
    let (_place, rest) = u16_at(bytes)?;
    Ok((Vec::new(alloc), rest))
}

/// A verification type.
#[tactic(auto, unfolding(program_tables::specs::FrameClasses::type_in))]
fn type_at(alloc: Global, bytes: &[u8]) -> Result<(Vec<u16>, &[u8]), FormatFault>
    ensures { Gives (λ x. (x.0.items, x.1.now)) result (type_in bytes.now) }
{
    match bytes {
        [] => Err(FormatFault::Bad),
        [tag, rest @ ..] => match *tag {
            0 | 1 | 4 | 5 | 6 => Ok((Vec::new(alloc), rest)),
            7 => index_at(alloc, rest),
            8 => place_at(alloc, rest),
            _ => Err(FormatFault::Bad),
        },
    }
}

/// So many verification types.
fn many_types(alloc: Global, count: u16, bytes: &[u8]) -> Result<(Vec<u16>, &[u8]), FormatFault>
    ensures { Gives (λ x. (x.0.items, x.1.now)) result (many type_in count bytes.now) }
{
    let mut classes = Vec::new(alloc);
    let mut rest = bytes;
    for _ in 0..count {
        let (mut found, after) = type_at(alloc, rest)?;
        classes.append(&mut found)?;
        rest = after;
    }
    Ok((classes, rest))
}

/// A number of verification types, and these.
fn counted_types(alloc: Global, bytes: &[u8]) -> Result<(Vec<u16>, &[u8]), FormatFault>
    ensures { Gives (λ x. (x.0.items, x.1.now)) result (counted type_in bytes.now) }
{
    let (count, rest) = u16_at(bytes)?;
    many_types(alloc, count, rest)
}

/// All local variables, then the whole stack.
fn full_at(alloc: Global, bytes: &[u8]) -> Result<(Vec<u16>, &[u8]), FormatFault>
    ensures { Gives (λ x. (x.0.items, x.1.now)) result (full_in bytes.now) }
{
    let (mut classes, rest) = counted_types(alloc, bytes)?;
    let (mut stack, rest) = counted_types(alloc, rest)?;
    classes.append(&mut stack)?;
    Ok((classes, rest))
}

/// What stands behind the offset of a frame that has one of two bytes.
fn change_at(alloc: Global, tag: u8, bytes: &[u8]) -> Result<(Vec<u16>, &[u8]), FormatFault>
    requires { 247 ≤ tag }
    ensures { Gives (λ x. (x.0.items, x.1.now)) result (change_in tag bytes.now) }
{
    match tag {
        247 => type_at(alloc, bytes),
        248..=251 => Ok((Vec::new(alloc), bytes)),
        252..=254 => many_types(alloc, u16::from(tag - 251), bytes),
        _ => full_at(alloc, bytes),
    }
}

/// A frame.
#[tactic(auto, unfolding(program_tables::specs::FrameClasses::frame_in))]
fn frame_at(alloc: Global, bytes: &[u8]) -> Result<(Vec<u16>, &[u8]), FormatFault>
    ensures { Gives (λ x. (x.0.items, x.1.now)) result (frame_in bytes.now) }
{
    match bytes {
        [] => Err(FormatFault::Bad),
        [tag, rest @ ..] => {
            let tag = *tag;
            if tag < 64 {
                Ok((Vec::new(alloc), rest))
            } else if tag < 128 {
                type_at(alloc, rest)
            } else if tag < 247 {
                Err(FormatFault::Bad)
            } else {
                let (_offset, rest) = u16_at(rest)?;
                change_at(alloc, tag, rest)
            }
        }
    }
}

/// So many frames.
fn many_frames(alloc: Global, count: u16, bytes: &[u8]) -> Result<(Vec<u16>, &[u8]), FormatFault>
    ensures { Gives (λ x. (x.0.items, x.1.now)) result (many frame_in count bytes.now) }
{
    let mut classes = Vec::new(alloc);
    let mut rest = bytes;
    for _ in 0..count {
        let (mut found, after) = frame_at(alloc, rest)?;
        classes.append(&mut found)?;
        rest = after;
    }
    Ok((classes, rest))
}

/// A number of frames, and these.
fn counted_frames(alloc: Global, bytes: &[u8]) -> Result<(Vec<u16>, &[u8]), FormatFault>
    ensures { Gives (λ x. (x.0.items, x.1.now)) result (counted frame_in bytes.now) }
{
    let (count, rest) = u16_at(bytes)?;
    many_frames(alloc, count, rest)
}

/// Whether each index is that of a Class entry.
fn are_classes(pool: &Pool, indexes: &[u16]) -> bool
    ensures { result ≡ list_all (λ index. is_class (entry_at pool.now index)) indexes.now }
{
    indexes
        .iter()
        .all(|index| pool.class_name(*index).is_some())
}

/// The indexes of the classes that the frames of a StackMapTable name; none where the bytes are no such table.
#[tactic(auto, unfolding(program_tables::specs::FrameClasses::frame_classes))]
fn frame_classes(alloc: Global, pool: &Pool, bytes: &[u8]) -> Result<Vec<u16>, NoMemory>
    ensures { IfOk result (λ classes. classes.items ≡ frame_classes pool.now bytes.now) }
{
    match counted_frames(alloc, bytes) {
        Ok((classes, rest)) => {
            if rest.is_empty() && are_classes(pool, &classes) {
                Ok(classes)
            } else {
                Ok(Vec::new(alloc))
            }
        }
        Err(FormatFault::Bad) => Ok(Vec::new(alloc)),
        Err(FormatFault::NoMemory) => Err(NoMemory),
    }
}

/// The indexes of the classes that the frames of a code's StackMapTable name, in order.
pub(crate) fn classes_in_frames(
    alloc: Global,
    pool: &Pool,
    code: &Code,
) -> Result<Vec<u16>, NoMemory>
    ensures { IfOk result (λ classes. classes.items ≡ classes_in_frames pool.now code.now) }
{
    match code.stack_map(pool) {
        Some(bytes) => frame_classes(alloc, pool, bytes),
        None => Ok(Vec::new(alloc)),
    }
}
