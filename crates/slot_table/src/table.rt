//! The table.
ghost use Rattle.std.specs.Prelude.{◌≡◌, ◌≤◌, ◌<◌, ◌^◌, length, map, IfOk, IfErr, OnOk};
ghost use Rattle.slot_table.specs.Slots.{length_of, IsTable, AreRightSlots};
ghost use Rattle.slot_table.specs.Grammar.{IsTableRead, IsTableRefused, Adds, SlotLineFails, IsSlotCount, CountFails};

use crate::line::read_line;
use crate::slot::Slot;
use ascii_text::lines;
use base::{FormatFault, NoMemory};
use std::alloc::{AllocFailed, Global};
use std::marker::Model;

/// The most slots of a table.
const MOST_SLOTS: usize = 64;

/// Why a text gives no table.
#[derive(Clone, Copy)]
pub enum TableFault {
    /// The line of this number, counted from 1, is none of the grammar.
    Line(u32),
    /// There are so many slots, and not 1 to 64.
    Count(u32),
    /// There was no memory.
    NoMemory,
}

impl<T: Drop> From<AllocFailed<T>> for TableFault {
    ghost use Rattle.std.specs.Prelude.{◌≡◌};
    ghost use Rattle.slot_table.specs.declared.table.TableFault.TheVariants.{NoMemory};

    ghost from_gives = { λ _ fault. fault ≡ NoMemory };

    fn from(_: AllocFailed<T>) -> Self {
        TableFault::NoMemory
    }
}

/// The slots of a cyclic executive, in order. Contracts see them as the list.
#[derive(Drop)]
pub struct SlotTable {
    slots: Vec<Slot>,
}

impl Model for SlotTable {
    ghost use Rattle.std.specs.Prelude.{List};
    ghost use Rattle.slot_table.specs.declared.slot.Slot.{Slot};
    ghost use Rattle.slot_table.specs.Slots.{IsTable};

    ghost Value = { List Slot };

    ghost view = { λ t. t.slots.items };

    ghost invariant = { λ t. IsTable t.slots.items };
}

impl SlotTable {
    /// The slots: 1 to 64 of them, with names and lengths of the grammar.
    pub fn slots(&self) -> &[Slot]
        ensures slots { result.now ≡ self.now }
        ensures table { IsTable self.now }
    {
        &self.slots
    }

    /// The lengths of the slots, in cycles.
    pub fn lengths(&self, alloc: Global) -> Result<Vec<u64>, NoMemory>
        ensures { IfOk result (λ lengths. lengths.items ≡ map length_of self.now) }
    {
        Ok(self.slots.iter().map(|slot| slot.length).collect(alloc)?)
    }
}

/// The table that a text gives. A line is refused where it is none of the grammar; where no line is, the number of slots counts.
pub fn read_table(alloc: Global, text: &[u8]) -> Result<SlotTable, TableFault>
    requires { length text.now ≤ 33554432 }
    ensures read { IfOk result (IsTableRead text.now) }
    ensures refused { IfErr result (IsTableRefused text.now) }
{
    let mut slots = Vec::new(alloc);
    let mut number = 0u32;
    for line in lines(text) {
        number += 1;
        take_line(&mut slots, alloc, line, number)?;
    }
    counted(slots)
}

/// Takes what the line of this number says.
fn take_line(
    slots: &mut Vec<Slot>,
    alloc: Global,
    line: &[u8],
    number: u32,
) -> Result<(), TableFault>
    ensures said { OnOk result (Adds line.now slots.old.items slots.new.items) }
    ensures refused { IfErr result (SlotLineFails line.now number) }
{
    match read_line(alloc, line) {
        Ok(None) => Ok(()),
        Ok(Some(slot)) => Ok(slots.push(slot)?),
        Err(FormatFault::Bad) => Err(TableFault::Line(number)),
        Err(FormatFault::NoMemory) => Err(TableFault::NoMemory),
    }
}

/// The table of these slots, if they are 1 to 64.
fn counted(slots: Vec<Slot>) -> Result<SlotTable, TableFault>
    requires right { AreRightSlots slots.items }
    requires few { length slots.items < 2 ^ 32 }
    ensures table { IfOk result (λ table. table ≡ slots.items) }
    ensures count { OnOk result (IsSlotCount (length slots.items)) }
    ensures other { IfErr result (CountFails (length slots.items)) }
{
    let count = slots.len();
    if count == 0 || count > MOST_SLOTS {
        return Err(TableFault::Count(count as u32));
    }
    Ok(SlotTable { slots })
}
