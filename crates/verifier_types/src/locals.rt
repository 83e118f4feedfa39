//! Local variables of frames of types (JVM Specification SE 8, 4.10.1.4).
ghost use Rattle.std.specs.Prelude.{◌≡◌, ◌+◌, ◌<◌, ◌^◌, List, length, map, option_map, if◌then◌else◌, Some, None, slice_get, slice_set, IfOk, OnOk};
ghost use Rattle.bytecode_model.specs.Slots.{without_half, stored_at, stored};
ghost use Rattle.bytecode_typing.specs.Types as typing;
ghost use Rattle.bytecode_typing.specs.Types.{is_long_type, substituted};
ghost use Rattle.verifier_types.specs.Seen.{type_seen};
ghost use Rattle.verifier_types.specs.Locals.{HasListsOf, lists_seen, types_at, locals_seen};
ghost use Rattle.verifier_types.specs.Written.{IsSubstitutedAt};

use crate::local_lists::LocalLists;
use crate::types::VarType;
use base::NoMemory;

/// The types of the local variables of a frame: the number of a list of types, which other frames may have too. Contracts see them with
/// the lists (`locals_seen`).
#[derive(Clone, Copy)]
pub struct Locals {
    /// The number of the list.
    pub(crate) list: u32,
}

impl Locals {
    /// The types of the list of this number; no local variable where there is no such list.
    pub fn new(list: u32) -> Self
        ensures { (ls : List (List typing.VarType)) → locals_seen ls result ≡ types_at ls list }
    {
        Locals { list }
    }

    /// The type of a local variable, if there is one of this index.
    pub fn local(&self, lists: &LocalLists<'_>, index: u32) -> Option<VarType>
        ensures { option_map type_seen result ≡ slice_get (locals_seen (lists_seen lists.now) self.now) index }
    {
        lists.item(self.list, index)
    }

    /// Writes a local variable, for which a list is added.
    fn write(
        &mut self,
        lists: &mut LocalLists<'_>,
        index: u32,
        item: VarType,
    ) -> Result<(), NoMemory>
        requires { index < length (locals_seen (lists_seen lists.old) self.old) }
        ensures lists { OnOk result (HasListsOf lists.old lists.new) }
        ensures written { OnOk result (locals_seen (lists_seen lists.new) self.new ≡ slice_set (locals_seen (lists_seen lists.old) self.old) index
            (type_seen item)) }
    {
        self.list = lists.push_with(self.list, index, item)?;
        Ok(())
    }

    /// The first half of a `long` whose second half is about to be written is known no longer.
    fn forget_half(&mut self, lists: &mut LocalLists<'_>, index: u32) -> Result<(), NoMemory>
        ensures lists { OnOk result (HasListsOf lists.old lists.new) }
        ensures forgotten { OnOk result (locals_seen (lists_seen lists.new) self.new ≡ without_half is_long_type typing.Top
            (locals_seen (lists_seen lists.old) self.old) index) }
    {
        if index == 0 {
            return Ok(());
        }
        match self.local(lists, index - 1) {
            Some(item) if item.is_long() => self.write(lists, index - 1, VarType::Top),
            _ => Ok(()),
        }
    }

    /// Writes the last local variable, which has no room for a `long`.
    fn store_last(
        &mut self,
        lists: &mut LocalLists<'_>,
        index: u32,
        item: VarType,
    ) -> Result<bool, NoMemory>
        requires here { index < length (locals_seen (lists_seen lists.old) self.old) }
        requires last { slice_get (locals_seen (lists_seen lists.old) self.old) (index + 1) ≡ None }
        ensures lists { OnOk result (HasListsOf lists.old lists.new) }
        ensures stored { IfOk result (λ done. (if done then Some (locals_seen (lists_seen lists.new) self.new) else None) ≡ stored_at is_long_type typing.Top
            (locals_seen (lists_seen lists.old) self.old) index (type_seen item)) }
    {
        if item.is_long() {
            return Ok(false);
        }
        self.write(lists, index, item)?;
        Ok(true)
    }

    /// Writes a local variable and what takes two words, or loses its first one, behind it.
    fn store_both(
        &mut self,
        lists: &mut LocalLists<'_>,
        index: u32,
        item: VarType,
    ) -> Result<(), NoMemory>
        requires fits { index + 1 < 2 ^ 32 }
        requires behind { index + 1 < length (locals_seen (lists_seen lists.old) self.old) }
        ensures lists { OnOk result (HasListsOf lists.old lists.new) }
        ensures written { OnOk result (locals_seen (lists_seen lists.new) self.new ≡ slice_set
            (slice_set (locals_seen (lists_seen lists.old) self.old) (index + 1) typing.Top) index (type_seen item)) }
    {
        self.write(lists, index + 1, VarType::Top)?;
        self.write(lists, index, item)
    }

    /// Writes a local variable, of the type `old`, that has another behind it. A `long` takes that one too, and the second half of what
    /// loses its first one is known no longer.
    fn store_before(
        &mut self,
        lists: &mut LocalLists<'_>,
        index: u32,
        old: VarType,
        item: VarType,
    ) -> Result<(), NoMemory>
        requires fits { index + 1 < 2 ^ 32 }
        requires here { slice_get (locals_seen (lists_seen lists.old) self.old) index ≡ Some (type_seen old) }
        requires behind { index + 1 < length (locals_seen (lists_seen lists.old) self.old) }
        ensures lists { OnOk result (HasListsOf lists.old lists.new) }
        ensures stored { OnOk result (Some (locals_seen (lists_seen lists.new) self.new) ≡ stored_at is_long_type typing.Top
            (locals_seen (lists_seen lists.old) self.old) index (type_seen item)) }
    {
        if item.is_long() || old.is_long() {
            self.store_both(lists, index, item)
        } else {
            self.write(lists, index, item)
        }
    }

    /// Writes a local variable, the first half before which is forgotten.
    fn store_at(
        &mut self,
        lists: &mut LocalLists<'_>,
        index: u32,
        item: VarType,
    ) -> Result<bool, NoMemory>
        ensures lists { OnOk result (HasListsOf lists.old lists.new) }
        ensures stored { IfOk result (λ done. (if done then Some (locals_seen (lists_seen lists.new) self.new) else None) ≡ stored_at is_long_type typing.Top
            (locals_seen (lists_seen lists.old) self.old) index (type_seen item)) }
    {
        if index >= lists.max_locals() {
            return Ok(false);
        }
        match (self.local(lists, index), self.local(lists, index + 1)) {
            (Some(old), Some(_)) => {
                self.store_before(lists, index, old, item)?;
                Ok(true)
            }
            (Some(_), None) => self.store_last(lists, index, item),
            (None, _) => Ok(false),
        }
    }

    /// Writes a local variable, for which lists are added, and says whether there was room for it. Where memory is wanting it may be written
    /// in part.
    pub fn store(
        &mut self,
        lists: &mut LocalLists<'_>,
        index: u32,
        item: VarType,
    ) -> Result<bool, NoMemory>
        ensures lists { OnOk result (HasListsOf lists.old lists.new) }
        ensures stored { IfOk result (λ done. (if done then Some (locals_seen (lists_seen lists.new) self.new) else None) ≡ stored is_long_type typing.Top
            (locals_seen (lists_seen lists.old) self.old) index (type_seen item)) }
    {
        self.forget_half(lists, index)?;
        self.store_at(lists, index, item)
    }

    /// Puts one type in the place of each uninitialised type `old`, for which lists are added. Where memory is wanting it may be put in some
    /// of these places.
    pub fn substitute(
        &mut self,
        lists: &mut LocalLists<'_>,
        old: VarType,
        new: VarType,
    ) -> Result<(), NoMemory>
        ensures lists { OnOk result (HasListsOf lists.old lists.new) }
        ensures substituted { OnOk result (locals_seen (lists_seen lists.new) self.new ≡ map (substituted (type_seen old) (type_seen new))
            (locals_seen (lists_seen lists.old) self.old)) }
    {
        if old.is_initialized() {
            return Ok(());
        }
        let mut from = 0;
        while let Some(index) = lists.position(self.list, old, from) {
            self.substitute_at(lists, index, old, new)?;
            from = index + 1;
        }
        Ok(())
    }

    /// Puts the type in the place of `old` in one local variable.
    fn substitute_at(
        &mut self,
        lists: &mut LocalLists<'_>,
        index: u32,
        old: VarType,
        new: VarType,
    ) -> Result<(), NoMemory>
        ensures lists { OnOk result (HasListsOf lists.old lists.new) }
        ensures substituted { OnOk result (IsSubstitutedAt index (type_seen old) (type_seen new) (locals_seen (lists_seen lists.old) self.old)
            (locals_seen (lists_seen lists.new) self.new)) }
    {
        match self.local(lists, index) {
            Some(item) => self.write(lists, index, item.substituted(old, new)),
            None => Ok(()),
        }
    }
}
