//! A StackMapTable as it is read (JVM Specification SE 8, 4.7.4).
ghost use Rattle.std.specs.Prelude.{◌≡◌, ◌-◌, ◌≤◌, ◌<◌, map};
ghost use Rattle.base.specs.Reading.{Gives};
ghost use Rattle.class_file.specs.InsideReading.{many_in, counted_in};
ghost use Rattle.frame_types.specs.Table.{object_in, uninitialized_in, tagged_in, type_in, one_item_in, append_in, full_in, change_in, frame_in, map_entry_in};
ghost use Rattle.frame_types.specs.Table.{table_in, entries_of};
ghost use Rattle.frame_types.specs.Steps.{named, change_named};
ghost use Rattle.frame_types.specs.Extents.{entry_named};

use crate::steps::{EntryType, StepChange};
use crate::types::VarType;
use base::{FormatFault, Items};
use class_pool::numbers::{u8_at, u16_at};
use class_pool::{Code, Pool};
use std::alloc::Global;

/// A change with the names of classes, as contracts see a [`StepChange`].
#[derive(Drop)]
pub enum Change {
    /// same_frame and same_frame_extended: the same local variables.
    Same,
    /// same_locals_1_stack_item_frame and its extended form: the same local variables, and one item on the operand stack.
    OneItem(VarType),
    /// chop_frame: so many of the last local variables are absent.
    Chop(u8),
    /// append_frame: these local variables follow.
    Append(Items<VarType>),
    /// full_frame: all local variables, and the operand stack from its bottom to its top.
    Full(Items<VarType>, Items<VarType>),
}

/// An entry of a StackMapTable with the names of classes, as contracts see one.
#[derive(Drop)]
pub struct MapEntry {
    /// How far it stands behind the least place at which it may stand.
    pub offset: u16,
    pub change: Change,
}

/// An entry of a StackMapTable.
#[derive(Drop)]
pub(crate) struct StepEntry {
    /// How far it stands behind the least place at which it may stand.
    pub offset: u16,
    pub change: StepChange,
}

#[tactic(auto, unfolding(crate::specs::Table::object_in))]
fn object_at<'a>(pool: &Pool, bytes: &'a [u8]) -> Result<(EntryType, &'a [u8]), FormatFault>
    ensures { Gives (λ x. (named pool.now x.0, x.1.now)) result (object_in pool.now bytes.now) }
{
    let (index, rest) = u16_at(bytes)?;
    match pool.class_name(index) {
        Some(_) => Ok((EntryType::Object(index), rest)),
        None => Err(FormatFault::Bad),
    }
}

#[tactic(auto, unfolding(crate::specs::Table::uninitialized_in))]
fn uninitialized_at<'a>(pool: &Pool, bytes: &'a [u8]) -> Result<(EntryType, &'a [u8]), FormatFault>
    ensures { Gives (λ x. (named pool.now x.0, x.1.now)) result (uninitialized_in bytes.now) }
{
    let (place, rest) = u16_at(bytes)?;
    Ok((EntryType::Uninitialized(u32::from(place)), rest))
}

/// What stands behind a tag.
#[tactic(auto, unfolding(crate::specs::Table::tagged_in))]
fn tagged_at<'a>(
    pool: &Pool,
    tag: u8,
    bytes: &'a [u8],
) -> Result<(EntryType, &'a [u8]), FormatFault>
    ensures { Gives (λ x. (named pool.now x.0, x.1.now)) result (tagged_in pool.now tag bytes.now) }
{
    match tag {
        0 => Ok((EntryType::Top, bytes)),
        1 => Ok((EntryType::Integer, bytes)),
        4 => Ok((EntryType::Long, bytes)),
        5 => Ok((EntryType::Null, bytes)),
        6 => Ok((EntryType::UninitializedThis, bytes)),
        7 => object_at(pool, bytes),
        8 => uninitialized_at(pool, bytes),
        _ => Err(FormatFault::Bad),
    }
}

#[tactic(auto, unfolding(crate::specs::Table::type_in))]
fn type_at<'a>(pool: &Pool, bytes: &'a [u8]) -> Result<(EntryType, &'a [u8]), FormatFault>
    ensures { Gives (λ x. (named pool.now x.0, x.1.now)) result (type_in pool.now bytes.now) }
{
    let (tag, rest) = u8_at(bytes)?;
    tagged_at(pool, tag, rest)
}

fn many_types<'a>(
    alloc: Global,
    pool: &Pool,
    count: u16,
    bytes: &'a [u8],
) -> Result<(Vec<EntryType>, &'a [u8]), FormatFault>
    ensures { Gives (λ x. (map (named pool.now) x.0.items, x.1.now)) result (many_in (type_in pool.now) count bytes.now) }
{
    let mut types = Vec::new(alloc);
    let mut rest = bytes;
    for _ in 0..count {
        let (found, after) = type_at(pool, rest)?;
        types.push(found)?;
        rest = after;
    }
    Ok((types, rest))
}

#[tactic(auto, unfolding(class_file::specs::InsideReading::counted_in))]
fn types_at<'a>(
    alloc: Global,
    pool: &Pool,
    bytes: &'a [u8],
) -> Result<(Items<EntryType>, &'a [u8]), FormatFault>
    ensures { Gives (λ x. (map (named pool.now) x.0, x.1.now)) result (counted_in (type_in pool.now) bytes.now) }
{
    let (count, rest) = u16_at(bytes)?;
    let (types, rest) = many_types(alloc, pool, count, rest)?;
    Ok((Items::new(types), rest))
}

#[tactic(auto, unfolding(crate::specs::Table::one_item_in))]
fn one_item_at<'a>(pool: &Pool, bytes: &'a [u8]) -> Result<(StepChange, &'a [u8]), FormatFault>
    ensures { Gives (λ x. (change_named pool.now x.0, x.1.now)) result (one_item_in pool.now bytes.now) }
{
    let (item, rest) = type_at(pool, bytes)?;
    Ok((StepChange::OneItem(item), rest))
}

#[tactic(auto, unfolding(crate::specs::Table::append_in))]
fn append_at<'a>(
    alloc: Global,
    pool: &Pool,
    count: u8,
    bytes: &'a [u8],
) -> Result<(StepChange, &'a [u8]), FormatFault>
    ensures { Gives (λ x. (change_named pool.now x.0, x.1.now)) result (append_in pool.now count bytes.now) }
{
    let (locals, rest) = many_types(alloc, pool, u16::from(count), bytes)?;
    Ok((StepChange::Append(Items::new(locals)), rest))
}

#[tactic(auto, unfolding(crate::specs::Table::full_in))]
fn full_at<'a>(
    alloc: Global,
    pool: &Pool,
    bytes: &'a [u8],
) -> Result<(StepChange, &'a [u8]), FormatFault>
    ensures { Gives (λ x. (change_named pool.now x.0, x.1.now)) result (full_in pool.now bytes.now) }
{
    let (locals, rest) = types_at(alloc, pool, bytes)?;
    let (stack, rest) = types_at(alloc, pool, rest)?;
    Ok((StepChange::Full(locals, stack), rest))
}

/// What stands behind the offset of a frame that has one of two bytes.
#[tactic(auto, unfolding(crate::specs::Table::change_in))]
fn change_at<'a>(
    alloc: Global,
    pool: &Pool,
    tag: u8,
    bytes: &'a [u8],
) -> Result<(StepChange, &'a [u8]), FormatFault>
    requires { 247 ≤ tag }
    ensures { Gives (λ x. (change_named pool.now x.0, x.1.now)) result (change_in pool.now tag bytes.now) }
{
    match tag {
        247 => one_item_at(pool, bytes),
        248..=250 => Ok((StepChange::Chop(251 - tag), bytes)),
        251 => Ok((StepChange::Same, bytes)),
        252..=254 => append_at(alloc, pool, tag - 251, bytes),
        _ => full_at(alloc, pool, bytes),
    }
}

/// What stands behind the tag of a frame.
#[tactic(auto, unfolding(crate::specs::Table::frame_in))]
fn frame_at<'a>(
    alloc: Global,
    pool: &Pool,
    tag: u8,
    bytes: &'a [u8],
) -> Result<(StepEntry, &'a [u8]), FormatFault>
    ensures { Gives (λ x. (entry_named pool.now x.0, x.1.now)) result (frame_in pool.now tag bytes.now) }
{
    let (offset, (change, rest)) = match tag {
        0..=63 => (u16::from(tag), (StepChange::Same, bytes)),
        64..=127 => (u16::from(tag - 64), one_item_at(pool, bytes)?),
        128..=246 => return Err(FormatFault::Bad),
        _ => {
            let (offset, rest) = u16_at(bytes)?;
            (offset, change_at(alloc, pool, tag, rest)?)
        }
    };
    Ok((StepEntry { offset, change }, rest))
}

#[tactic(auto, unfolding(crate::specs::Table::map_entry_in))]
fn map_entry_at<'a>(
    alloc: Global,
    pool: &Pool,
    bytes: &'a [u8],
) -> Result<(StepEntry, &'a [u8]), FormatFault>
    ensures { Gives (λ x. (entry_named pool.now x.0, x.1.now)) result (map_entry_in pool.now bytes.now) }
{
    let (tag, rest) = u8_at(bytes)?;
    frame_at(alloc, pool, tag, rest)
}

fn many_entries<'a>(
    alloc: Global,
    pool: &Pool,
    count: u16,
    bytes: &'a [u8],
) -> Result<(Vec<StepEntry>, &'a [u8]), FormatFault>
    ensures { Gives (λ x. (map (entry_named pool.now) x.0.items, x.1.now)) result (many_in (map_entry_in pool.now) count bytes.now) }
{
    let mut entries = Vec::new(alloc);
    let mut rest = bytes;
    for _ in 0..count {
        let (entry, after) = map_entry_at(alloc, pool, rest)?;
        entries.push(entry)?;
        rest = after;
    }
    Ok((entries, rest))
}

#[tactic(auto, unfolding(crate::specs::Table::table_in, class_file::specs::InsideReading::counted_in))]
fn table_of(alloc: Global, pool: &Pool, bytes: &[u8]) -> Result<Vec<StepEntry>, FormatFault>
    ensures { Gives (λ x. map (entry_named pool.now) x.items) result (table_in pool.now bytes.now) }
{
    let (count, rest) = u16_at(bytes)?;
    let (entries, rest) = many_entries(alloc, pool, count, rest)?;
    if !rest.is_empty() {
        return Err(FormatFault::Bad);
    }
    Ok(entries)
}

/// The entries of a code's StackMapTable; a code without one has none.
pub(crate) fn entries_of(
    alloc: Global,
    pool: &Pool,
    code: &Code,
) -> Result<Vec<StepEntry>, FormatFault>
    ensures { Gives (λ x. map (entry_named pool.now) x.items) result (entries_of pool.now code.now) }
{
    match code.stack_map(pool) {
        Some(bytes) => table_of(alloc, pool, bytes),
        None => Ok(Vec::new(alloc)),
    }
}
