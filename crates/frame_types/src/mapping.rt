//! The frames of a method, each as the change of the one before it (JVM Specification SE 8, 4.7.4 and 4.10.1.6).
ghost use Rattle.std.specs.Prelude.{◌≡◌, ◌≤◌, ◌<◌, ◌-◌, ◌∷◌, [], List, length, take, map, IfOk, IsSomeAnd, IsTrue, Some, slice_get, nat_le, if◌then◌else◌};
ghost use Rattle.base.specs.Sizes.{longest_file};
ghost use Rattle.class_pool.specs.declared.entry.Entry.{Entry};
ghost use Rattle.class_pool.specs.declared.class.Code.{Code};
ghost use Rattle.class_pool.specs.declared.class.ClassFile.{ClassFile};
ghost use Rattle.class_pool.specs.declared.class.Member.{Member};
ghost use Rattle.class_pool.specs.Found.{code_of};
ghost use Rattle.opcodes.specs.Start.{starts_of};
ghost use Rattle.frame_types.specs.declared.types.VarType.{VarType};
ghost use Rattle.frame_types.specs.declared.read.Change.TheVariants.{Append, Full};
ghost use Rattle.frame_types.specs.Types.{is_start};
ghost use Rattle.frame_types.specs.Frames.{frames_from, frames_of};
ghost use Rattle.frame_types.specs.Steps.{named, change_named, BeginsWith, IsStepwise};
ghost use Rattle.frame_types.specs.Extents.{entry_named, AreLocals, Makes, MakesAt, StepsGive, frames_with};

use crate::code::{Placed, fit, is_start};
use crate::extents::{Extent, first_extents, last_of, push_all};
use crate::read::{StepEntry, entries_of};
use crate::steps::{EntryType, FirstLocal, MapStep, StepChange};
use crate::types::MapFault;
use base::{Items, NoMemory};
use class_pool::{ClassFile, Code, Member};
use opcodes::laws::starts_follow_one_another;
use opcodes::starts;
use std::alloc::Global;

/// chop_frame: without so many of the last local variables, if they are there.
fn chop(extents: &mut Vec<Extent>, n: u8) -> bool
    ensures there { result ≡ nat_le n (length extents.old.items) }
    ensures fewer { extents.new.items ≡ (if result then take (length extents.old.items - n) extents.old.items else extents.old.items) }
{
    if extents.len() < usize::from(n) {
        return false;
    }
    extents.truncate(extents.len() - usize::from(n));
    true
}

/// append_frame: with more of them.
fn append(
    code: &Code,
    placed: Placed<'_>,
    extents: &mut Vec<Extent>,
    more: &[EntryType],
) -> Result<bool, NoMemory>
    requires code { placed.code.now ≡ code.now.code }
    requires starts { placed.starts.now ≡ starts_of placed.code.now }
    ensures { IfOk result (λ made. (pool : List Entry) (ls : List VarType) → AreLocals code.now ls extents.old.items
        → Makes code.now (Append (map (named pool) more.now)) ls extents.new.items made) }
{
    let last = last_of(code.max_locals, extents);
    if !fit(placed, last.left, more) {
        return Ok(false);
    }
    push_all(extents, last, more)?;
    Ok(true)
}

/// full_frame: all of them, and the operand stack.
fn replace(
    code: &Code,
    placed: Placed<'_>,
    extents: &mut Vec<Extent>,
    all: &[EntryType],
    stack: &[EntryType],
) -> Result<bool, NoMemory>
    requires code { placed.code.now ≡ code.now.code }
    requires starts { placed.starts.now ≡ starts_of placed.code.now }
    ensures { IfOk result (λ made. (pool : List Entry) (ls : List VarType) → AreLocals code.now ls extents.old.items
        → Makes code.now (Full (map (named pool) all.now) (map (named pool) stack.now)) ls extents.new.items made) }
{
    if !fit(placed, code.max_locals, all) || !fit(placed, code.max_stack, stack) {
        return Ok(false);
    }
    extents.clear();
    push_all(extents, Extent::whole(code.max_locals), all)?;
    Ok(true)
}

/// Whether an entry makes a frame. The local variables are then those behind it.
fn makes(
    code: &Code,
    placed: Placed<'_>,
    change: &StepChange,
    extents: &mut Vec<Extent>,
) -> Result<bool, NoMemory>
    requires code { placed.code.now ≡ code.now.code }
    requires starts { placed.starts.now ≡ starts_of placed.code.now }
    ensures { IfOk result (λ made. (pool : List Entry) (ls : List VarType) → AreLocals code.now ls extents.old.items
        → Makes code.now (change_named pool change.now) ls extents.new.items made) }
{
    match change {
        StepChange::Same => Ok(true),
        StepChange::OneItem(item) => Ok(fit(placed, code.max_stack, &[*item])),
        StepChange::Chop(n) => Ok(chop(extents, *n)),
        StepChange::Append(more) => append(code, placed, extents, more.as_slice()),
        StepChange::Full(all, stack) => {
            replace(code, placed, extents, all.as_slice(), stack.as_slice())
        }
    }
}

/// The same of an entry at a place, at which an instruction is to begin.
fn makes_at(
    code: &Code,
    placed: Placed<'_>,
    place: u32,
    change: &StepChange,
    extents: &mut Vec<Extent>,
) -> Result<bool, NoMemory>
    requires code { placed.code.now ≡ code.now.code }
    requires starts { placed.starts.now ≡ starts_of placed.code.now }
    ensures start { IfOk result (λ made. IsTrue made → IsTrue (is_start code.now.code place)) }
    ensures made { IfOk result (λ made. (pool : List Entry) (ls : List VarType) → AreLocals code.now ls extents.old.items
        → MakesAt code.now place (change_named pool change.now) ls extents.new.items made) }
{
    if !is_start(placed, place) {
        return Ok(false);
    }
    makes(code, placed, change, extents)
}

/// The steps of the entries, where the method begins with these local variables.
fn steps_from(
    alloc: Global,
    code: &Code,
    placed: Placed<'_>,
    first: Vec<Extent>,
    entries: Vec<StepEntry>,
) -> Result<Items<MapStep>, MapFault>
    requires code { placed.code.now ≡ code.now.code }
    requires starts { placed.starts.now ≡ starts_of placed.code.now }
    requires small { length code.now.code ≤ longest_file }
    ensures { (pool : List Entry) (ls : List VarType) → AreLocals code.now ls first.items
        → StepsGive pool code.now ls result (frames_from code.now 0 ls (map (entry_named pool) entries.items)) }
{
    starts_follow_one_another();
    let mut at = Vec::new(alloc);
    let mut next = 0u32;
    let mut extents = first;
    for entry in entries {
        let place = next + u32::from(entry.offset);
        if !makes_at(code, placed, place, &entry.change, &mut extents)? {
            return Err(MapFault::Bad(place));
        }
        at.push(MapStep {
            place,
            change: entry.change,
            flag: last_of(code.max_locals, &extents).this,
        })?;
        next = place + 1;
    }
    Ok(Items::new(at))
}

/// The frames of a method whose StackMapTable has these entries, where it begins with these local variables.
fn steps_with(
    alloc: Global,
    code: &Code,
    placed: Placed<'_>,
    first: &[FirstLocal],
    entries: Vec<StepEntry>,
) -> Result<Items<MapStep>, MapFault>
    requires code { placed.code.now ≡ code.now.code }
    requires starts { placed.starts.now ≡ starts_of placed.code.now }
    requires small { length code.now.code ≤ longest_file }
    ensures { (c : ClassFile) (m : Member) → BeginsWith c m first.now
        → IsStepwise c m code.now result (frames_with c m code.now (map (entry_named c.pool) entries.items)) }
{
    let Some(extents) = first_extents(alloc, code.max_locals, first)? else {
        return Err(MapFault::Bad(0));
    };
    steps_from(alloc, code, placed, extents, entries)
}

/// The frames of a method of the class that has this code and begins with these local variables.
#[tactic(auto, unfolding(crate::specs::Frames::frames_of))]
fn steps_of(
    alloc: Global,
    class: &ClassFile,
    code: &Code,
    first: &[FirstLocal],
) -> Result<Items<MapStep>, MapFault>
    requires { length code.now.code ≤ longest_file }
    ensures { (m : Member) → BeginsWith class.now m first.now → IsStepwise class.now m code.now result (frames_of class.now m code.now) }
{
    let bytes = code.code.as_slice();
    let starts = starts(alloc, bytes)?;
    let placed = Placed {
        code: bytes,
        starts: &starts,
    };
    let entries = entries_of(alloc, &class.pool, code)?;
    steps_with(alloc, code, placed, first, entries)
}

/// The frames of the class's method of this number, which has code and begins with these local variables, each as the change of
/// the one before it: in time linear in the length of its StackMapTable and the number of these local variables.
///
/// # Errors
///
/// [`MapFault::Bad`] exactly where the StackMapTable, or the first frame, breaks the rules first at that place.
pub fn map_steps(
    alloc: Global,
    class: &ClassFile,
    method: u32,
    first: &[FirstLocal],
) -> Result<Items<MapStep>, MapFault>
    requires there { method < length class.now.methods }
    requires coded { (m : Member) → slice_get class.now.methods method ≡ Some m → IsSomeAnd (code_of m) (λ k. length k.code ≤ longest_file) }
    requires first { (m : Member) → slice_get class.now.methods method ≡ Some m → BeginsWith class.now m first.now }
    ensures { (m : Member) (k : Code) → slice_get class.now.methods method ≡ Some m → code_of m ≡ Some k
        → IsStepwise class.now m k result (frames_of class.now m k) }
{
    let member = &class.methods.as_slice()[method as usize];
    let code = member.code().unwrap();
    steps_of(alloc, class, code, first)
}
