//! The names of a program's methods.
ghost use Rattle.std.specs.Prelude.{◌≡◌, ◌<◌, length, IfOk};
ghost use Rattle.program_tables.specs.Numbers.{methods_by_number};
ghost use Rattle.name_laws.specs.Written.{written_name};

use crate::writing::write_name;
use base::NoMemory;
use resolved_program::Program;
use std::alloc::Global;

/// What is written of the name of the method of this number: its class's name, a dot, its own name and its descriptor.
pub fn written_name(alloc: Global, program: &Program, number: u32) -> Result<Vec<u8>, NoMemory>
    requires { number < length (methods_by_number program.now) }
    ensures { IfOk result (λ name. name.items ≡ written_name program.now number) }
{
    let name = program.method_name(alloc, number)?;
    write_name(alloc, name)
}
