//! The instructions of a method, one after another.

ghost use Rattle.std.specs.Prelude.{◌≡◌, ℕ, IfOk};
ghost use Rattle.opcodes.specs.Start.{IsStart};
ghost use Rattle.bytecode_model.specs.Program.{Program};
ghost use Rattle.method_flow.specs.Flow.{IsCodedOf};
ghost use Rattle.code_scan.specs.Lines.{AreIntLines, IsIntLine};

use crate::rows::{IntRow, int_row};
use base::NoMemory;
use method_flow::FlowMethod;
use opcodes::{decode, starts};
use std::alloc::Global;

/// An instruction at a place of a code, in bytes, the place behind it, and what it does with ints.
#[derive(Clone, Copy)]
pub struct IntLine {
    pub place: u32,
    pub next: u32,
    pub row: IntRow,
}

/// The instruction at a place of the method's code.
pub fn int_line(method: &FlowMethod, place: u32) -> IntLine
    requires { IsStart method.now.code place }
    ensures place { result.place ≡ place }
    ensures line { (P : Program) (m : ℕ) → IsCodedOf P m method.now → IsIntLine P m result }
{
    opcodes::laws::starts_follow_one_another();
    opcodes::laws::instructions_end_within();
    code_lines::laws::lines_are_read();
    match decode(method.code(), place) {
        Ok(instr) => IntLine {
            place,
            next: place + instr.length,
            row: int_row(&instr),
        },
        Err(_) => IntLine {
            place,
            next: place,
            row: IntRow::Other,
        },
    }
}

/// The instructions of the method's code, rising by place.
pub fn int_lines(alloc: Global, method: &FlowMethod) -> Result<Vec<IntLine>, NoMemory>
    ensures { IfOk result (λ lines. (P : Program) (m : ℕ) → IsCodedOf P m method.now → AreIntLines P m lines.items) }
{
    opcodes::laws::starts_follow_one_another();
    code_lines::laws::lines_are_read();
    code_lines::laws::lines_follow_one_another();
    let starts = starts(alloc, method.code())?;
    let mut lines = Vec::with_capacity(alloc, starts.len())?;
    for place in &starts {
        lines.push(int_line(method, *place))?;
    }
    Ok(lines)
}
