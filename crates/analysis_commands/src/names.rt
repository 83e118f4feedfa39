//! The names of methods, as the lines of answers have them.
ghost use Rattle.std.specs.Prelude.{◌≡◌, IfOk};
ghost use Rattle.analysis_commands.specs.Analysis.{number_text};
ghost use Rattle.analysis_commands.specs.Answers.{table_name};

use ascii_text::put_u64;
use base::NoMemory;
use method_flow::FlowProgram;
use std::alloc::Global;

/// What stands in a line for the method of this number, whose code the program lacks.
pub(crate) fn number_text(alloc: Global, m: u32) -> Result<Vec<u8>, NoMemory>
    ensures { IfOk result (λ name. name.items ≡ number_text m) }
{
    let mut name = Vec::new(alloc);
    name.push(b'#')?;
    put_u64(&mut name, m as u64)?;
    Ok(name)
}

/// The name of a method, or what stands for it where the program lacks its code.
pub(crate) fn table_name(alloc: Global, flow: &FlowProgram, m: u32) -> Result<Vec<u8>, NoMemory>
    ensures { IfOk result (λ name. name.items ≡ table_name flow.now m) }
{
    if m < flow.method_count() {
        Ok(flow.method(m).name().to_vec(alloc)?)
    } else {
        number_text(alloc, m)
    }
}
