//! Class files that are linked with the executive of a table of slots behind them.
ghost use Rattle.std.specs.Prelude.{◌≡◌, ◌+◌, ◌≤◌, ◌<◌, ◌^◌, length, drop, IfOk, IfErr, OnOk};
ghost use Rattle.outside.specs.Files.{contents};
ghost use Rattle.endings.specs.Linking.{LinkFault};
ghost use Rattle.endings.specs.Executive.{table_ending, executive_class, with_executive, PutsBehind, IsLinkedOf, IsLinkedWith};

use crate::linking::not_linked;
use crate::outcome::{Ending, Refusal};
use base::NoMemory;
use jopizer::{Linked, link};
use slot_table::{SlotTable, TableFault, executive_file};
use std::alloc::Global;

/// The ending that says why a text gives no table.
pub fn table_ending(fault: TableFault) -> Ending
    ensures { result ≡ table_ending fault }
{
    match fault {
        TableFault::Line(line) => Ending::Refused(Refusal::BadTable(line)),
        TableFault::Count(count) => Ending::Refused(Refusal::SlotCount(count)),
        TableFault::NoMemory => Ending::NoMemory,
    }
}

/// Puts the file of the executive behind the operands.
fn push_executive(
    alloc: Global,
    operands: &mut Vec<Vec<u8>>,
    table: &SlotTable,
    rounds: u32,
) -> Result<(), NoMemory>
    requires some { 1 ≤ rounds }
    requires few { rounds ≤ 32767 }
    ensures { OnOk result (PutsBehind table.now rounds operands.old.items operands.new.items) }
{
    let file = executive_file(alloc, table, rounds)?;
    Ok(operands.push(file)?)
}

/// What the class files are linked to, with the class whose `main` calls the slots.
fn link_cyclic(alloc: Global, files: &[Vec<u8>]) -> Result<Linked, Ending>
    requires { length files.now < 2 ^ 32 }
    ensures linked { IfOk result (IsLinkedOf (contents files.now)) }
    ensures fault { IfErr result (LinkFault (contents files.now) executive_class) }
{
    match link(alloc, files, b"Cyclic") {
        Ok(linked) => Ok(linked),
        Err(refusal) => Err(not_linked(alloc, files, refusal)),
    }
}

/// Links the class files, which are the operands from the one of this number on, with the executive of the table. Its file is put
/// behind the operands.
pub fn link_behind(
    alloc: Global,
    operands: &mut Vec<Vec<u8>>,
    first: usize,
    table: &SlotTable,
    rounds: u32,
) -> Result<Linked, Ending>
    requires behind { 1 ≤ first }
    requires there { first ≤ length operands.old.items }
    requires short { length operands.old.items < 2 ^ 32 }
    requires some { 1 ≤ rounds }
    requires few { rounds ≤ 32767 }
    ensures linked { IfOk result (IsLinkedWith table.now rounds (drop first (contents operands.old.items))) }
    ensures behind { OnOk result (PutsBehind table.now rounds operands.old.items operands.new.items) }
    ensures fault { IfErr result (LinkFault (with_executive table.now rounds (drop first (contents operands.old.items))) executive_class) }
{
    match push_executive(alloc, operands, table, rounds) {
        Ok(()) => link_cyclic(alloc, &operands[first..]),
        Err(NoMemory) => Err(Ending::NoMemory),
    }
}
