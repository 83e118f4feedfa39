//! Where instructions begin, and where they lead: JVM Specification SE 8, 4.7.3, 4.9.1 and 6.5.

ghost use Rattle.std.specs.Prelude.{◌≡◌, ℕ, ◌+◌, ◌<◌, ◌≤◌, List, ◌++◌, length, map, Ok, Some, IfOk, slice_get, pos, ◌+ℤ◌};
ghost use Rattle.base.specs.Sizes.{longest_file};
ghost use Rattle.opcodes.specs.Instruction.{decoded};
ghost use Rattle.opcodes.specs.Start.{starts_of, next_start};
ghost use Rattle.opcodes.specs.Entry.{entry_form};
ghost use Rattle.opcodes.specs.Target.{cases_of, targets_of, leads, or_none};

use crate::decoder::{length, signed_word};
use crate::instruction::{Case, Instr};
use crate::table::{FixedOperand, Form, form_of};
use base::NoMemory;
use std::alloc::Global;

/// The places at which the instructions of a code begin, rising. The last one may be a place from which the code isn't a
/// whole instruction.
pub fn starts(alloc: Global, code: &[u8]) -> Result<Vec<u32>, NoMemory>
    requires small { length code.now ≤ longest_file }
    ensures { IfOk result (λ starts. starts.items ≡ starts_of code.now) }
{
    let mut starts = Vec::with_capacity(alloc, code.len())?;
    let mut next = if code.is_empty() { None } else { Some(0) };
    while let Some(pc) = next {
        starts.push(pc)?;
        next = place_behind(code, pc);
    }
    Ok(starts)
}

/// The place behind a whole instruction, where the code goes on.
fn place_behind(code: &[u8], pc: u32) -> Option<u32>
    requires inside { pc < length code.now }
    requires small { length code.now ≤ longest_file }
    ensures { result ≡ next_start code.now pc }
{
    let behind = pc + length(code, pc)?;
    if (behind as usize) < code.len() {
        Some(behind)
    } else {
        None
    }
}

/// The place that an instruction names as the target of its branch, or of a switch without a matching key.
pub fn target(pc: u32, instr: &Instr) -> Option<i64>
    ensures { (code : List ℕ) → targets_of code pc instr.now ≡ or_none result ++ map (λ c. pos pc +ℤ c.offset) (cases_of code instr.now) }
{
    if has_offset(form_of(instr.op)) {
        Some(placed(pc, instr))
    } else {
        None
    }
}

/// The place at the offset that an instruction has first.
fn placed(pc: u32, instr: &Instr) -> i64
    ensures { result ≡ pos pc +ℤ instr.now.first }
{
    i64::from(pc) + i64::from(instr.first)
}

/// Whether an instruction of this form has a branch offset or a default offset.
fn has_offset(form: Form) -> bool
    ensures { result ≡ leads (entry_form form) }
{
    match form {
        Form::Fixed(operands) => matches!(
            operands.first,
            FixedOperand::Offset | FixedOperand::WideOffset
        ),
        Form::TableSwitch | Form::LookupSwitch => true,
        _ => false,
    }
}

/// A case of a switch, counted from 0 in the order of the code.
pub fn case(code: &[u8], pc: u32, instr: &Instr, index: u32) -> Case
    requires decoded { decoded code.now pc ≡ Ok instr.now }
    requires small { length code.now ≤ longest_file }
    requires one { index < instr.now.count }
    ensures { slice_get (cases_of code.now instr.now) index ≡ Some result }
{
    let (table, index) = (instr.table as usize, index as usize);
    match form_of(instr.op) {
        Form::LookupSwitch => {
            let pair = table + 8 * index;
            Case {
                key: signed_word(code, pair),
                offset: signed_word(code, pair + 4),
            }
        }
        _ => Case {
            key: instr.second + index as i32,
            offset: signed_word(code, table + 4 * index),
        },
    }
}
