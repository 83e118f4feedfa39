//! The file of the executive.
ghost use Rattle.std.specs.Prelude.{◌≡◌, ◌≤◌, IfOk};
ghost use Rattle.class_pool.specs.ClassSpelling.{class_bytes};
ghost use Rattle.slot_table.specs.Executive.{executive_of};

use crate::class::executive;
use crate::table::SlotTable;
use base::NoMemory;
use class_file::writing::write_class;
use std::alloc::Global;

/// The bytes of the file of the class `Cyclic`, whose main calls the slots of the table in order, so many rounds (JVM Specification SE 8,
/// 4.1).
pub fn executive_file(alloc: Global, table: &SlotTable, rounds: u32) -> Result<Vec<u8>, NoMemory>
    requires some { 1 ≤ rounds }
    requires few { rounds ≤ 32767 }
    ensures { IfOk result (λ file. file.items ≡ class_bytes (executive_of table.now rounds)) }
{
    let class = executive(alloc, table, rounds)?;
    write_class(alloc, &class)
}
