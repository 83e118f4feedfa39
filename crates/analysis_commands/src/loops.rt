//! The loops of a program that count, as lines of bounds.
ghost use Rattle.std.specs.Prelude.{◌≡◌, ◌++◌, OnOk, IfOk, flat_map};
ghost use Rattle.analysis_commands.specs.Answers.{table_name};
ghost use Rattle.analysis_commands.specs.Loops.{found_line, AreFurtherBy, AreFurtherLines, AreFurtherLinesBy, AreLoopLines};
ghost use Rattle.analysis_commands.specs.Loops.{AreLoopLinesBy, AreTablesBy};
ghost use Rattle.loop_rules.specs.Sites.{AreIntSites};
ghost use Rattle.program_tables.specs.Resolved.{resolved};

use crate::analysis::table_of;
use crate::names::table_name;
use answer_lines::put_loop_line;
use array_fields::{arrays_read, field_arrays};
use base::NoMemory;
use bytecode_verifier::Verified;
use known_ints::{known_by_constants, known_tables};
use loop_finder::{find, find_further};
use loop_rules::further::KnownTable;
use loop_rules::{FoundLoop, IntSites};
use method_flow::FlowProgram;
use program_sites::ints::int_sites;
use resolved_program::Program;
use std::alloc::Global;

/// Appends the line of a loop that was found, if it isn't one of the method that is run first.
fn put_found(
    alloc: Global,
    text: &mut Vec<u8>,
    flow: &FlowProgram,
    found: FoundLoop,
) -> Result<(), NoMemory>
    ensures { OnOk result (text.new.items ≡ text.old.items ++ found_line (table_name flow.now) flow.now.boot found) }
{
    if found.method == flow.boot() {
        return Ok(());
    }
    let name = table_name(alloc, flow, found.method)?;
    put_loop_line(text, &name, found.place, found.bound)
}

/// The lines of loops that were found.
fn lines_of(alloc: Global, flow: &FlowProgram, found: &[FoundLoop]) -> Result<Vec<u8>, NoMemory>
    ensures { IfOk result (λ text. text.items ≡ flat_map (found_line (table_name flow.now) flow.now.boot) found.now) }
{
    let mut text = Vec::new(alloc);
    for one in found {
        put_found(alloc, &mut text, flow, *one)?;
    }
    Ok(text)
}

/// The lines of the loops of a program that count, by its table.
fn lines_by(alloc: Global, flow: &FlowProgram, program: &Program) -> Result<Vec<u8>, NoMemory>
    ensures { IfOk result (λ text. AreLoopLinesBy flow.now program.now text.items) }
{
    let sites = int_sites(alloc, program)?;
    let found = find(alloc, flow, &sites)?;
    lines_of(alloc, flow, &found)
}

/// The lines that bound the loops of a program that count, methods and places of headers rising: `NAME PC loop<=N`, as a text of
/// bounds has them. Loops of the method that is run first are passed over.
pub fn loop_lines(alloc: Global, program: &Verified) -> Result<Vec<u8>, NoMemory>
    ensures { IfOk result (λ text. AreLoopLines program.now text.items) }
{
    let flow = table_of(alloc, program)?;
    lines_by(alloc, &flow, program.program())
}

/// What lines of the methods push, with the arrays of fields to which only arrays are put whose lengths are known without them.
fn further_tables(
    alloc: Global,
    flow: &FlowProgram,
    program: &Program,
    sites: &IntSites,
) -> Result<Vec<KnownTable>, NoMemory>
    requires { AreIntSites (resolved program.now) sites.now }
    ensures { IfOk result (λ tables. AreTablesBy flow.now program.now sites.now.constants tables.items) }
{
    array_fields::laws::known_fields_are_apart();
    let by_constants = known_by_constants(alloc, flow, sites)?;
    let arrays = field_arrays(alloc, program, &by_constants)?;
    let read = arrays_read(alloc, program, &arrays)?;
    known_tables(alloc, flow, sites, &read)
}

/// The loops of a program that count with what is known further, by its table.
fn further_by(
    alloc: Global,
    flow: &FlowProgram,
    program: &Program,
) -> Result<Vec<FoundLoop>, NoMemory>
    ensures { IfOk result (λ found. AreFurtherBy flow.now program.now found.items) }
{
    let sites = int_sites(alloc, program)?;
    let tables = further_tables(alloc, flow, program, &sites)?;
    find_further(alloc, flow, &tables)
}

/// Their lines.
fn further_lines_by(
    alloc: Global,
    flow: &FlowProgram,
    program: &Program,
) -> Result<Vec<u8>, NoMemory>
    ensures { IfOk result (λ text. AreFurtherLinesBy flow.now program.now text.items) }
{
    let found = further_by(alloc, flow, program)?;
    lines_of(alloc, flow, &found)
}

/// The lines that bound the loops of a program that count with what is known further: ints that lines push by constants, by local
/// variables into which only one int is stored, and by lengths of arrays, those in fields too. The lines stand as those of `loop_lines`.
pub fn further_lines(alloc: Global, program: &Verified) -> Result<Vec<u8>, NoMemory>
    ensures { IfOk result (λ text. AreFurtherLines program.now text.items) }
{
    let flow = table_of(alloc, program)?;
    further_lines_by(alloc, &flow, program.program())
}
