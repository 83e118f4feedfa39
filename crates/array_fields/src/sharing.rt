//! Which classes have a subclass in common.

ghost use Rattle.std.specs.Prelude.{◌≡◌, ◌<◌, length, IfOk};
ghost use Rattle.program_tables.specs.Resolved.{resolved};
ghost use Rattle.array_fields.specs.First.{AreSharing, HasMarked};

use crate::first::extends;
use base::NoMemory;
use resolved_program::Program;
use std::alloc::Global;

/// Flags the classes that the class extends, of so many as there are flags.
fn mark(flags: &mut Vec<bool>, program: &Program, class: u32)
    requires class { class < length program.now }
    requires long { length flags.now.items ≡ length program.now }
    ensures { HasMarked (resolved program.now) class flags.old.items flags.new.items }
{
    for other in 0..program.class_count() {
        if extends(program, class, other) {
            flags[other as usize] = true;
        }
    }
}

/// The classes that have a subclass in common with the class, which may be either of them.
pub(crate) fn sharing(alloc: Global, program: &Program, class: u32) -> Result<Vec<bool>, NoMemory>
    ensures { IfOk result (λ flags. AreSharing (resolved program.now) (length program.now) class flags.items) }
{
    let mut flags = vec![in alloc; false; program.class_count() as usize]?;
    for lower in 0..program.class_count() {
        if extends(program, lower, class) {
            mark(&mut flags, program, lower);
        }
    }
    Ok(flags)
}
