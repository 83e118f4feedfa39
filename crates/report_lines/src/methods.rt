//! The methods of a program as lines name them, and their sources.
ghost use Rattle.std.specs.Prelude.{◌<◌, length, IfOk};
ghost use Rattle.program_tables.specs.Numbers.{methods_by_number};
ghost use Rattle.report_lines.specs.Told.{AreTextsOf, IsTextOf};

use base::NoMemory;
use name_laws::written_name;
use resolved_program::Program;
use source_places::methods::{MethodSource, source_of};
use std::alloc::Global;

/// The name of a method as it is written, and its source where it is told.
#[derive(Drop)]
pub(crate) struct MethodText {
    pub(crate) name: Vec<u8>,
    pub(crate) source: Option<MethodSource>,
}

/// The name of a method, and its source.
fn method_text(alloc: Global, program: &Program, number: u32) -> Result<MethodText, NoMemory>
    requires { number < length (methods_by_number program.now) }
    ensures { IfOk result (IsTextOf program.now number) }
{
    let name = written_name(alloc, program, number)?;
    let source = source_of(alloc, program, number)?;
    Ok(MethodText { name, source })
}

/// The names of all methods by number, and their sources.
pub(crate) fn methods_of(alloc: Global, program: &Program) -> Result<Vec<MethodText>, NoMemory>
    ensures { IfOk result (λ methods. AreTextsOf program.now methods.items) }
{
    let mut methods = Vec::new(alloc);
    for number in 0..program.method_count() {
        let method = method_text(alloc, program, number)?;
        methods.push(method)?;
    }
    Ok(methods)
}
