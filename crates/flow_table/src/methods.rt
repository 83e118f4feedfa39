//! The methods of the table.
ghost use Rattle.std.specs.Prelude.{◌≡◌, map, IfOk};
ghost use Rattle.bytecode_typing.specs.Lawful.{Lawful};
ghost use Rattle.bytecode_typing.specs.WellPlaced.{WellPlaced};
ghost use Rattle.program_tables.specs.Resolved.{resolved};
ghost use Rattle.name_laws.specs.Written.{written_name};
ghost use Rattle.flow_table.specs.Made.{range_at, AreCoded, HasCode, IsMade, AreMade};

use crate::invokes::calls_of;
use base::NoMemory;
use bytecode_typing::control_stays_at_instructions;
use class_pool::Code;
use class_rules::laws::methods_have_code;
use method_flow::laws::rows_are_of_their_kinds;
use method_flow::{FlowMethod, HandlerRange};
use name_laws::written_name;
use opcodes::laws::{instructions_end_within, starts_follow_one_another};
use program_tables::laws::methods_stand_by_number;
use resolved_program::Program;
use std::alloc::Global;

/// The entries of an exception table, what they catch apart.
fn ranges_of(alloc: Global, entries: &[(u16, u16, u16, u16)]) -> Result<Vec<HandlerRange>, NoMemory>
    ensures { IfOk result (λ ranges. ranges.items ≡ map range_at entries.now) }
{
    let mut ranges = Vec::new(alloc);
    for entry in entries {
        ranges.push(HandlerRange {
            start: u32::from(entry.0),
            end: u32::from(entry.1),
            handler: u32::from(entry.2),
        })?;
    }
    Ok(ranges)
}

/// The method of this number, of this name and with these ranges of its exception table.
fn method_with(
    alloc: Global,
    program: &Program,
    number: u32,
    code: &Code,
    coded: u32,
    name: Vec<u8>,
    ranges: Vec<HandlerRange>,
) -> Result<FlowMethod, NoMemory>
    requires placed { WellPlaced (resolved program.now) }
    requires lawful { Lawful (resolved program.now) }
    requires coded { AreCoded program.now coded }
    requires code { HasCode program.now number code.now }
    requires name { name.items ≡ written_name program.now number }
    requires ranges { ranges.items ≡ map range_at code.now.handlers }
    ensures { IfOk result (IsMade program.now coded number) }
{
    methods_stand_by_number();
    methods_have_code();
    program.is_resolved();
    instructions_end_within();
    starts_follow_one_another();
    control_stays_at_instructions();
    rows_are_of_their_kinds();
    let calls = calls_of(alloc, program, number, code.code.as_slice(), coded)?;
    let bytes = Vec::from_slice(alloc, code.code.as_slice())?;
    Ok(FlowMethod::new(name, bytes, ranges, calls))
}

/// The method of this number.
fn method_of(
    alloc: Global,
    program: &Program,
    number: u32,
    code: &Code,
    coded: u32,
) -> Result<FlowMethod, NoMemory>
    requires placed { WellPlaced (resolved program.now) }
    requires lawful { Lawful (resolved program.now) }
    requires coded { AreCoded program.now coded }
    requires code { HasCode program.now number code.now }
    ensures { IfOk result (IsMade program.now coded number) }
{
    let ranges = ranges_of(alloc, code.handlers.as_slice())?;
    let name = written_name(alloc, program, number)?;
    method_with(alloc, program, number, code, coded, name, ranges)
}

/// The methods with code, by number.
pub(crate) fn methods_of(
    alloc: Global,
    program: &Program,
    coded: u32,
) -> Result<Vec<FlowMethod>, NoMemory>
    requires placed { WellPlaced (resolved program.now) }
    requires lawful { Lawful (resolved program.now) }
    requires coded { AreCoded program.now coded }
    ensures { IfOk result (λ methods. AreMade program.now coded coded methods.items) }
{
    methods_stand_by_number();
    let mut methods = Vec::new(alloc);
    for number in 0..coded {
        let Some(code) = program.code(number) else {
            return Ok(methods);
        };
        methods.push(method_of(alloc, program, number, code, coded)?)?;
    }
    Ok(methods)
}
