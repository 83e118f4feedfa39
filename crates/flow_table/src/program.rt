//! The table of a program.
ghost use Rattle.std.specs.Prelude.{◌≡◌, ℕ, Some, IfOk, slice_get};
ghost use Rattle.bytecode_typing.specs.Lawful.{Lawful};
ghost use Rattle.method_flow.specs.Flow.{Coded, IsFlowOf};
ghost use Rattle.program_tables.specs.Resolved.{resolved};
ghost use Rattle.name_laws.specs.Written.{written_name};
ghost use Rattle.bytecode_typing.specs.WellPlaced.{WellPlaced};
ghost use Rattle.flow_table.specs.Names.{IsFirstNamed};

use crate::coded::coded_count;
use crate::methods::methods_of;
use crate::targets::target_lists;
use base::NoMemory;
use class_hierarchy::Place;
use method_flow::FlowProgram;
use program_tables::laws::methods_stand_by_number;
use resolved_program::Program;
use std::alloc::Global;

/// The number of the method that is run.
fn boot_of(p: &Program) -> u32
    ensures { result ≡ (resolved p.now).boot }
{
    let last = Place {
        class: p.class_count().saturating_sub(1),
        index: 0,
    };
    p.method_number(last).unwrap_or(0)
}

/// The methods with code of a program, by number, and what their invokes may run: for each method that invokes name one list,
/// however many they are.
pub fn flow_of(alloc: Global, p: &Program) -> Result<FlowProgram, NoMemory>
    requires placed { WellPlaced (resolved p.now) }
    requires lawful { Lawful (resolved p.now) }
    ensures flow { IfOk result (IsFlowOf (resolved p.now)) }
    ensures names { IfOk result (λ f. (m : ℕ) (k : Coded) → slice_get f.methods m ≡ Some k → k.name ≡ written_name p.now m) }
{
    methods_stand_by_number();
    let coded = coded_count(p);
    // The numbers of lists are of 32 bits.
    if p.method_count() > u32::MAX - coded {
        return Err(NoMemory);
    }
    let methods = methods_of(alloc, p, coded)?;
    let targets = target_lists(alloc, p, &methods, coded)?;
    Ok(FlowProgram::new(methods, targets, boot_of(p)))
}

/// The least number of a method of this name, as it is written: its class's name, a dot, its own name and its descriptor.
pub fn find_method(f: &FlowProgram, name: &[u8]) -> Option<u32>
    ensures { IsFirstNamed f.now name.now result }
{
    for number in 0..f.method_count() {
        if f.method(number).name() == name {
            return Some(number);
        }
    }
    None
}
