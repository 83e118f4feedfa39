//! What lines push, of all methods of a program.

ghost use Rattle.std.specs.Prelude.{◌≡◌, ℕ, IfOk};
ghost use Rattle.bytecode_model.specs.Program.{Program};
ghost use Rattle.method_flow.specs.Flow.{IsFlowOf};
ghost use Rattle.loop_rules.specs.Sites.{AreIntSites, constants_in};
ghost use Rattle.loop_rules.specs.Further.Known.{Known};
ghost use Rattle.loop_rules.specs.Further.Found.{only_constants};
ghost use Rattle.loop_rules.specs.Further.Arrays.{AreApart, AreMethodArrays, AreTables};
ghost use Rattle.known_ints.specs.Tables.{AreTold, arrays_of};

use crate::rounds::known_ints;
use base::{Items, NoMemory};
use loop_rules::IntSites;
use loop_rules::further::KnownTable;
use method_flow::FlowProgram;
use std::alloc::Global;

/// The lengths of arrays that are told of a method.
fn arrays_of(arrays: &[Items<Option<i32>>], number: u32) -> &[Option<i32>]
    ensures { result.now ≡ arrays_of arrays.now number }
{
    let index = number as usize;
    if index < arrays.len() {
        arrays[index].as_slice()
    } else {
        &[]
    }
}

/// What lines of the methods push, by number; no arrays of fields are known to a method of which none are told.
fn tables_by(
    alloc: Global,
    f: &FlowProgram,
    s: &IntSites,
    arrays: &[Items<Option<i32>>],
) -> Result<Vec<KnownTable>, NoMemory>
    ensures { IfOk result (λ tables. (P : Program) (known : Known) → AreTold P known f.now s.now arrays.now → AreTables P known tables.items) }
{
    let mut tables = Vec::new(alloc);
    for number in 0..f.method_count() {
        if number as usize >= s.method_count() {
            return Ok(tables);
        }
        let read = arrays_of(arrays, number);
        let table = known_ints(alloc, f.method(number), s.method(number), read)?;
        tables.push(table)?;
    }
    Ok(tables)
}

/// What lines of the methods push, by number. `arrays` has for each method with code, by place, the lengths of the arrays of the fields
/// that its instructions read.
pub fn known_tables(
    alloc: Global,
    f: &FlowProgram,
    s: &IntSites,
    arrays: &[Items<Option<i32>>],
) -> Result<Vec<KnownTable>, NoMemory>
    ensures { IfOk result (λ tables. (P : Program) (known : Known) → IsFlowOf P f.now → AreIntSites P s.now
        → ((field : ℕ) → known.constants field ≡ constants_in s.now field) → AreApart known → AreMethodArrays P known arrays.now
        → AreTables P known tables.items) }
{
    tables_by(alloc, f, s, arrays)
}

/// The same where nothing is known of fields but constants.
pub fn known_by_constants(
    alloc: Global,
    f: &FlowProgram,
    s: &IntSites,
) -> Result<Vec<KnownTable>, NoMemory>
    ensures { IfOk result (λ tables. (P : Program) → IsFlowOf P f.now → AreIntSites P s.now → AreTables P (only_constants (constants_in s.now)) tables.items) }
{
    crate::laws::no_fields_are_read();
    tables_by(alloc, f, s, &[])
}
