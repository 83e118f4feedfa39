//! Frames that a StackMapTable gives as changes, as frames of types (JVM Specification SE 8, 4.7.4 and 4.10.1.2).
ghost use Rattle.std.specs.Prelude.{◌≡◌, ◌≤◌, ◌<◌, ◌+◌, ◌-◌, ◌∷◌, [], ◌++◌, ℕ, List, length, map, take, replicate, Some, None, IfOk, OnOk, slice_get};
ghost use Rattle.std.specs.List.{AllByRecursion};
ghost use Rattle.class_pool.specs.declared.class.ClassFile.{ClassFile};
ghost use Rattle.class_pool.specs.declared.class.Code.{Code};
ghost use Rattle.class_lookup.specs.Parts.{class_text};
ghost use Rattle.bytecode_model.specs.Slots.{padded};
ghost use Rattle.bytecode_typing.specs.Types as typing;
ghost use Rattle.bytecode_typing.specs.Typings.{frame_among};
ghost use Rattle.frame_types.specs.declared.types.VarType as named_types;
ghost use Rattle.frame_types.specs.declared.types.TypeFrame as named_frames;
ghost use Rattle.frame_types.specs.declared.types.VarType.TheVariants.{Object};
ghost use Rattle.frame_types.specs.Frames.{changed, frame_of};
ghost use Rattle.frame_types.specs.Steps.{named as type_named, change_named, AreSteps};
ghost use Rattle.verifier_types.specs.Frame.{frame_seen};
ghost use Rattle.verifier_types.specs.Locals.{HasListsOf, LocalTable, lists_seen, filled};
ghost use Rattle.verifier_types.specs.Seen.{type_seen, types_seen};
ghost use Rattle.bytecode_verifier.specs.Listed.{IsListed, IsListOf, words_of, starts_from, HasLocals, HasLocalsIfRoom, types_by};
ghost use Rattle.bytecode_verifier.specs.Maps.{seen_at, frames_seen, frames_at};
ghost use Rattle.bytecode_verifier.specs.Named.{type_by, frame_by, frames_by};

use crate::maps::MapFrames;
use base::NoMemory;
use frame_types::{EntryType, MapStep, StepChange};
use resolved_program::Program;
use std::alloc::Global;
use verifier_types::laws::what_has_room_is_filled;
use verifier_types::{LocalLists, Locals, Operands, TypeFrame, VarType};

/// The local variables behind an entry: the number of the list of their types, the index of the first word of each, and how many words
/// they are.
#[derive(Drop)]
pub struct Current {
    pub list: u32,
    pub starts: Vec<u32>,
    pub words: u32,
}

/// The class whose method has the frames, in its program.
#[derive(Drop)]
pub struct Owner<'a> {
    pub program: &'a Program,
    pub class: u32,
    ghost there: { class < length program.now },
}

/// The type of an object by a Class entry.
fn entry_object(of: &Owner<'_>, index: u16) -> VarType
    ensures { (c : ClassFile) → slice_get of.now.program.now of.now.class ≡ Some c
        → type_seen result ≡ type_by of.now.program.now (Object (class_text c.pool index)) }
{
    match of.program.kind_of_entry(of.class, index) {
        Some(kind) => VarType::Reference(kind),
        None => VarType::Top,
    }
}

/// A type that has its class by a Class entry.
fn type_of_entry(of: &Owner<'_>, entry: EntryType) -> VarType
    ensures { (c : ClassFile) → slice_get of.now.program.now of.now.class ≡ Some c → type_seen result ≡ type_by of.now.program.now (type_named c.pool entry) }
{
    match entry {
        EntryType::Top => VarType::Top,
        EntryType::Integer => VarType::Integer,
        EntryType::Null => VarType::Null,
        EntryType::UninitializedThis => VarType::UninitializedThis,
        EntryType::Object(index) => entry_object(of, index),
        EntryType::Uninitialized(place) => VarType::Uninitialized(place),
        EntryType::Long => VarType::LongInteger,
    }
}

/// Types one after another.
fn types_of_entries(
    alloc: Global,
    of: &Owner<'_>,
    entries: &[EntryType],
) -> Result<Vec<VarType>, NoMemory>
    ensures { IfOk result (λ found. (c : ClassFile) → slice_get of.now.program.now of.now.class ≡ Some c
        → types_seen found.items ≡ types_by of.now.program.now (map (type_named c.pool) entries.now)) }
{
    let mut found = Vec::new(alloc);
    for entry in entries {
        found.push(type_of_entry(of, *entry))?;
    }
    Ok(found)
}

/// The index behind the words of a value.
fn behind(index: u32, item: VarType) -> Result<u32, NoMemory>
    ensures { IfOk result (λ next. next ≡ index + length (words_of (type_seen item ∷ []))) }
{
    let words = if item.is_long() { 2 } else { 1 };
    match index.checked_add(words) {
        Some(next) => Ok(next),
        None => Err(NoMemory),
    }
}

/// Adds a local variable behind the others, which has its room.
fn add_local(
    lists: &mut LocalLists<'_>,
    current: &mut Current,
    item: VarType,
) -> Result<(), NoMemory>
    ensures lists { OnOk result (HasListsOf lists.old lists.new) }
    ensures locals { OnOk result ((types : List typing.VarType) → length (words_of (types ++ type_seen item ∷ [])) ≤ lists.old.max_locals
        → HasLocals lists.old current.old types → HasLocals lists.new current.new (types ++ type_seen item ∷ [])) }
{
    current.starts.push(current.words)?;
    current.list = lists.push_with(current.list, current.words, item)?;
    current.words = behind(current.words, item)?;
    Ok(())
}

/// Adds local variables behind the others, which have their room.
fn add_locals(
    of: &Owner<'_>,
    lists: &mut LocalLists<'_>,
    current: &mut Current,
    entries: &[EntryType],
) -> Result<(), NoMemory>
    ensures lists { OnOk result (HasListsOf lists.old lists.new) }
    ensures locals { OnOk result ((c : ClassFile) (types : List typing.VarType) → slice_get of.now.program.now of.now.class ≡ Some c
        → length (words_of (types ++ types_by of.now.program.now (map (type_named c.pool) entries.now))) ≤ lists.old.max_locals
        → HasLocals lists.old current.old types → HasLocals lists.new current.new
        (types ++ types_by of.now.program.now (map (type_named c.pool) entries.now))) }
{
    for entry in entries {
        add_local(lists, current, type_of_entry(of, *entry))?;
    }
    Ok(())
}

/// A list that is another one but for Top at the words from one index to another.
fn forget_words(lists: &mut LocalLists<'_>, list: u32, from: u32, end: u32) -> Result<u32, NoMemory>
    ensures lists { OnOk result (HasListsOf lists.old lists.new) }
    ensures list { IfOk result (λ number. (words : List typing.VarType) → length words ≤ lists.old.max_locals → length words ≡ end → from ≤ end
        → IsListed lists.old list (filled lists.old.max_locals words) → IsListed lists.new number (filled lists.old.max_locals (take from words))) }
{
    let mut now = list;
    let mut index = end;
    while index > from {
        index -= 1;
        now = lists.push_with(now, index, VarType::Top)?;
    }
    Ok(now)
}

/// The index of the first word of a local variable, or the one behind all.
fn start_of(current: &Current, index: usize) -> u32
    ensures { (t : LocalTable) (types : List typing.VarType) → HasLocals t current.now types → index ≤ length types
        → result ≡ length (words_of (take index types)) }
{
    if index < current.starts.len() {
        current.starts[index]
    } else {
        current.words
    }
}

/// Takes so many of the last local variables away, which are there.
fn chop_locals(lists: &mut LocalLists<'_>, current: &mut Current, count: u8) -> Result<(), NoMemory>
    ensures lists { OnOk result (HasListsOf lists.old lists.new) }
    ensures locals { OnOk result ((types : List typing.VarType) → count ≤ length types → HasLocals lists.old current.old types
        → HasLocals lists.new current.new (take (length types - count) types)) }
{
    let kept = current.starts.len().saturating_sub(usize::from(count));
    let from = start_of(current, kept);
    let list = forget_words(lists, current.list, from, current.words)?;
    current.list = list;
    current.starts.truncate(kept);
    current.words = from;
    Ok(())
}

/// The index of the first word of each of these types.
fn starts_of(alloc: Global, types: &[VarType]) -> Result<(Vec<u32>, u32), NoMemory>
    ensures starts { IfOk result (λ s. s.0.items ≡ starts_from 0 (types_seen types.now)) }
    ensures words { IfOk result (λ s. s.1 ≡ length (words_of (types_seen types.now))) }
{
    let mut starts = Vec::new(alloc);
    let mut words = 0;
    for item in types {
        let next = behind(words, *item)?;
        starts.push(words)?;
        words = next;
    }
    Ok((starts, words))
}

/// Adds a type to the local variables, and Top behind a long one.
fn push_spread(locals: &mut Vec<VarType>, item: VarType) -> Result<(), NoMemory>
    ensures { OnOk result (types_seen locals.new.items ≡ types_seen locals.old.items ++ words_of (type_seen item ∷ [])) }
{
    locals.push(item)?;
    if item.is_long() {
        locals.push(VarType::Top)?;
    }
    Ok(())
}

/// The words of these types: a long one is followed by Top.
fn spread(alloc: Global, types: &[VarType]) -> Result<Vec<VarType>, NoMemory>
    ensures { IfOk result (λ words. types_seen words.items ≡ words_of (types_seen types.now)) }
{
    let mut words = Vec::new(alloc);
    for item in types {
        push_spread(&mut words, *item)?;
    }
    Ok(words)
}

/// The number of the list of these types and then Top; nothing where they are more than the local variables.
fn list_of(
    alloc: Global,
    lists: &mut LocalLists<'_>,
    types: &[VarType],
    max_locals: u16,
) -> Result<Option<u32>, NoMemory>
    requires { lists.old.max_locals ≡ max_locals }
    ensures lists { OnOk result (HasListsOf lists.old lists.new) }
    ensures list { IfOk result (λ list. IsListOf lists.new list (padded typing.Top max_locals (types_seen types.now))) }
{
    what_has_room_is_filled();
    let count = usize::from(max_locals);
    if types.len() > count {
        return Ok(None);
    }
    let list = lists.push(alloc, types)?;
    Ok(Some(list))
}

/// All local variables, if they have room.
pub fn all_locals(
    alloc: Global,
    lists: &mut LocalLists<'_>,
    types: &[VarType],
    max_locals: u16,
) -> Result<Option<Current>, NoMemory>
    requires { lists.old.max_locals ≡ max_locals }
    ensures lists { OnOk result (HasListsOf lists.old lists.new) }
    ensures locals { IfOk result (λ found. HasLocalsIfRoom lists.new found (types_seen types.now)) }
{
    what_has_room_is_filled();
    let found = starts_of(alloc, types)?;
    let all = spread(alloc, types)?;
    match list_of(alloc, lists, &all, max_locals)? {
        Some(list) => Ok(Some(Current {
            list,
            starts: found.0,
            words: found.1,
        })),
        None => Ok(None),
    }
}

/// All local variables by entries, which have their room.
fn full_locals(
    alloc: Global,
    of: &Owner<'_>,
    lists: &mut LocalLists<'_>,
    current: &mut Current,
    entries: &[EntryType],
    max_locals: u16,
) -> Result<(), NoMemory>
    requires { lists.old.max_locals ≡ max_locals }
    ensures lists { OnOk result (HasListsOf lists.old lists.new) }
    ensures locals { OnOk result ((c : ClassFile) → slice_get of.now.program.now of.now.class ≡ Some c
        → length (words_of (types_by of.now.program.now (map (type_named c.pool) entries.now))) ≤ lists.old.max_locals
        → HasLocals lists.new current.new (types_by of.now.program.now (map (type_named c.pool) entries.now))) }
{
    let types = types_of_entries(alloc, of, entries)?;
    match all_locals(alloc, lists, &types, max_locals)? {
        Some(all) => {
            *current = all;
            Ok(())
        }
        None => Err(NoMemory),
    }
}

/// The local variables behind an entry, which have their room.
fn change_locals(
    alloc: Global,
    of: &Owner<'_>,
    lists: &mut LocalLists<'_>,
    current: &mut Current,
    change: &StepChange,
    max_locals: u16,
) -> Result<(), NoMemory>
    requires { lists.old.max_locals ≡ max_locals }
    ensures lists { OnOk result (HasListsOf lists.old lists.new) }
    ensures locals { OnOk result ((c : ClassFile) (before after stack : List named_types.VarType) → slice_get of.now.program.now of.now.class ≡ Some c
        → changed (change_named c.pool change.now) before ≡ Some (after, stack) → length (words_of (types_by of.now.program.now after)) ≤ lists.old.max_locals
        → HasLocals lists.old current.old (types_by of.now.program.now before) → HasLocals lists.new current.new (types_by of.now.program.now after)) }
{
    match change {
        StepChange::Same => Ok(()),
        StepChange::OneItem(_) => Ok(()),
        StepChange::Chop(count) => chop_locals(lists, current, *count),
        StepChange::Append(entries) => add_locals(of, lists, current, entries.as_slice()),
        StepChange::Full(entries, _) => {
            full_locals(alloc, of, lists, current, entries.as_slice(), max_locals)
        }
    }
}

/// The operand stack that an entry gives, from its bottom to its top.
fn stack_of(alloc: Global, of: &Owner<'_>, change: &StepChange) -> Result<Vec<VarType>, NoMemory>
    ensures { IfOk result (λ found. (c : ClassFile) (before after stack : List named_types.VarType) → slice_get of.now.program.now of.now.class ≡ Some c
        → changed (change_named c.pool change.now) before ≡ Some (after, stack) → types_seen found.items ≡ types_by of.now.program.now stack) }
{
    match change {
        StepChange::OneItem(entry) => types_of_entries(alloc, of, &[*entry]),
        StepChange::Full(_, entries) => types_of_entries(alloc, of, entries.as_slice()),
        StepChange::Same | StepChange::Chop(_) | StepChange::Append(_) => Ok(Vec::new(alloc)),
    }
}

/// The frame that an entry gives.
fn frame_behind(
    alloc: Global,
    of: &Owner<'_>,
    lists: &mut LocalLists<'_>,
    current: &mut Current,
    step: &MapStep,
    max_locals: u16,
) -> Result<TypeFrame, NoMemory>
    requires { lists.old.max_locals ≡ max_locals }
    ensures lists { OnOk result (HasListsOf lists.old lists.new) }
    ensures locals { OnOk result ((c : ClassFile) (k : Code) (before after stack : List named_types.VarType) (f : named_frames.TypeFrame)
        → slice_get of.now.program.now of.now.class ≡ Some c → k.max_locals ≡ max_locals
        → changed (change_named c.pool step.now.change) before ≡ Some (after, stack) → frame_of k after stack ≡ Some f
        → HasLocals lists.old current.old (types_by of.now.program.now before) → HasLocals lists.new current.new (types_by of.now.program.now after)) }
    ensures frame { IfOk result (λ frame. (c : ClassFile) (k : Code) (before after stack : List named_types.VarType) (f : named_frames.TypeFrame)
        (more : List (List typing.VarType)) → slice_get of.now.program.now of.now.class ≡ Some c → k.max_locals ≡ max_locals
        → changed (change_named c.pool step.now.change) before ≡ Some (after, stack) → frame_of k after stack ≡ Some f → f.flag ≡ step.now.flag
        → HasLocals lists.old current.old (types_by of.now.program.now before)
        → frame_seen (lists_seen lists.new ++ more) frame ≡ frame_by of.now.program.now f) }
{
    what_has_room_is_filled();
    change_locals(alloc, of, lists, current, &step.change, max_locals)?;
    let stack = stack_of(alloc, of, &step.change)?;
    let locals = Locals::new(current.list);
    let operands = Operands::new(stack);
    Ok(TypeFrame {
        locals,
        operands,
        flag: step.flag,
    })
}

/// The frames of a StackMapTable with their places, one after another, behind these local variables.
fn placed_frames(
    alloc: Global,
    of: &Owner<'_>,
    lists: &mut LocalLists<'_>,
    first: Current,
    steps: &[MapStep],
    max_locals: u16,
) -> Result<Vec<(u32, TypeFrame)>, NoMemory>
    requires { lists.old.max_locals ≡ max_locals }
    ensures lists { OnOk result (HasListsOf lists.old lists.new) }
    ensures frames { IfOk result (λ found. (c : ClassFile) (k : Code) (locals : List named_types.VarType) (xs : List (ℕ × named_frames.TypeFrame))
        (more : List (List typing.VarType)) → slice_get of.now.program.now of.now.class ≡ Some c → k.max_locals ≡ max_locals
        → HasLocals lists.old first (types_by of.now.program.now locals) → AreSteps c.pool k locals steps.now xs
        → frames_seen (lists_seen lists.new ++ more) found.items ≡ frames_by of.now.program.now xs) }
    ensures places { IfOk result (λ found. map (λ x. x.0) found.items ≡ map (λ s. s.place) steps.now) }
{
    let mut current = first;
    let mut found = Vec::new(alloc);
    for step in steps {
        let frame = frame_behind(alloc, of, lists, &mut current, step, max_locals)?;
        found.push((step.place, frame))?;
    }
    Ok(found)
}

/// No frame at any of so many places.
fn no_frames(alloc: Global, length: u32) -> Result<Vec<Option<TypeFrame>>, NoMemory>
    ensures { IfOk result (λ frames. frames.items ≡ replicate length None) }
{
    let mut frames = Vec::new(alloc);
    for _place in 0..length {
        frames.push(None)?;
    }
    Ok(frames)
}

/// Frames by their places, which are within a code of so many bytes. Where two stood at one place, the first would count.
fn by_place(
    alloc: Global,
    mut frames: Vec<(u32, TypeFrame)>,
    length: u32,
) -> Result<Vec<Option<TypeFrame>>, NoMemory>
    requires { AllByRecursion (λ x. x.0 < length) frames.items }
    ensures { IfOk result (λ places. (ls : List (List typing.VarType)) (place : ℕ)
        → seen_at ls places.items place ≡ frame_among (frames_seen ls frames.items) place) }
{
    let mut places = no_frames(alloc, length)?;
    while let Some((place, frame)) = frames.pop() {
        places[place as usize] = Some(frame);
    }
    Ok(places)
}

/// The frames of a StackMapTable, whose places are within a code of so many bytes, behind the local variables with which the method
/// begins. Their local variables refer to the lists.
pub fn map_frames(
    alloc: Global,
    of: &Owner<'_>,
    lists: &mut LocalLists<'_>,
    first: Current,
    steps: &[MapStep],
    max_locals: u16,
    length: u32,
) -> Result<MapFrames, NoMemory>
    requires room { lists.old.max_locals ≡ max_locals }
    requires within { AllByRecursion (λ s. s.place < length) steps.now }
    ensures lists { OnOk result (HasListsOf lists.old lists.new) }
    ensures frames { IfOk result (λ maps. (c : ClassFile) (k : Code) (locals : List named_types.VarType) (xs : List (ℕ × named_frames.TypeFrame))
        (more : List (List typing.VarType)) (place : ℕ) → slice_get of.now.program.now of.now.class ≡ Some c → k.max_locals ≡ max_locals
        → HasLocals lists.old first (types_by of.now.program.now locals) → AreSteps c.pool k locals steps.now xs
        → frames_at (lists_seen lists.new ++ more) maps place ≡ frame_among (frames_by of.now.program.now xs) place) }
{
    let frames = placed_frames(alloc, of, lists, first, steps, max_locals)?;
    let by_place = by_place(alloc, frames, length)?;
    Ok(MapFrames { by_place })
}
