//! The text of bounds of a program.
ghost use Rattle.std.specs.Prelude.{◌≡◌, ◌≤◌, ℕ, List, length, Some, IfOk, IfErr, slice_get};
ghost use Rattle.base.specs.Sizes.{longest_file};
ghost use Rattle.method_flow.specs.Flow.{Coded, IsFlowOf};
ghost use Rattle.name_laws.specs.Written.{written_name};
ghost use Rattle.program_tables.specs.Resolved.{resolved};
ghost use Rattle.bound_texts.specs.Sources.Grammar.{AreNotesRead};
ghost use Rattle.loop_finder.specs.Headers.{AreMethodHeaders};
ghost use Rattle.source_headers.specs.Files.{IsHeaderFile, IsHeaderFault};
ghost use Rattle.source_headers.specs.Found.{AreRising};
ghost use Rattle.source_headers.specs.Lacking.{AreUsedBy, IsFileBy, IsLackingFault, IsStrayFault};

use crate::fault::HeaderFault;
use crate::gathering::{Gathered, gather};
use crate::notes::notes_in;
use crate::straying::check_notes;
use bound_texts::sources::SourceBounds;
use loop_finder::{ProgramLoops, find_all};
use method_flow::FlowProgram;
use program_sites::ints::int_sites;
use resolved_program::Program;
use std::alloc::Global;

/// The text where no bound strays.
fn text_of(alloc: Global, notes: &SourceBounds, gathered: Gathered) -> Result<Vec<u8>, HeaderFault>
    ensures text { IfOk result (λ text. text.items ≡ gathered.text.items) }
    ensures used { IfOk result (λ _. AreUsedBy gathered notes.now) }
    ensures fault { IfErr result (IsLackingFault gathered notes.now) }
{
    check_notes(alloc, &gathered, notes)?;
    Ok(gathered.text)
}

/// The text of bounds of a program's loops, by what is found of them and what is said.
fn file_by(
    alloc: Global,
    program: &Program,
    flow: &FlowProgram,
    notes: &SourceBounds,
    loops: &ProgramLoops,
) -> Result<Vec<u8>, HeaderFault>
    requires flow { IsFlowOf (resolved program.now) flow.now }
    requires names { (m : ℕ) (k : Coded) → slice_get flow.now.methods m ≡ Some k → k.name ≡ written_name program.now m }
    requires found { AreRising loops.now.counted.items }
    requires headers { AreMethodHeaders (resolved program.now) (length flow.now.methods) loops.now.headers.items }
    ensures file { IfOk result (λ text. IsFileBy program.now notes.now loops.now.counted.items text.items) }
    ensures fault { IfErr result (IsStrayFault program.now notes.now) }
{
    let gathered = gather(alloc, program, flow, notes, loops)?;
    text_of(alloc, notes, gathered)
}

/// The text of bounds of a program's loops, by what is said of them.
fn noted_file(
    alloc: Global,
    program: &Program,
    flow: &FlowProgram,
    notes: &SourceBounds,
) -> Result<Vec<u8>, HeaderFault>
    requires flow { IsFlowOf (resolved program.now) flow.now }
    requires names { (m : ℕ) (k : Coded) → slice_get flow.now.methods m ≡ Some k → k.name ≡ written_name program.now m }
    ensures file { IfOk result (λ text. (lines : List ℕ) → AreNotesRead lines notes.now → IsHeaderFile program.now lines text.items) }
    ensures fault { IfErr result (λ fault. (lines : List ℕ) → AreNotesRead lines notes.now → IsHeaderFault program.now lines fault) }
{
    let sites = int_sites(alloc, program)?;
    let loops = find_all(alloc, flow, &sites)?;
    file_by(alloc, program, flow, notes, &loops)
}

/// The text of bounds of a program's loops, by its table: methods and headers rising, each with a remark on its source where that is
/// told, and then `NAME PC loop<=N` with the least number that is found or that the lines say, or a remark that wants one.
///
/// # Errors
///
/// What refuses the lines first, or else the first that is said of what heads no loop.
pub fn header_file(
    alloc: Global,
    program: &Program,
    flow: &FlowProgram,
    lines: &[u8],
) -> Result<Vec<u8>, HeaderFault>
    requires flow { IsFlowOf (resolved program.now) flow.now }
    requires names { (m : ℕ) (k : Coded) → slice_get flow.now.methods m ≡ Some k → k.name ≡ written_name program.now m }
    requires short { length lines.now ≤ longest_file }
    ensures file { IfOk result (λ text. IsHeaderFile program.now lines.now text.items) }
    ensures fault { IfErr result (IsHeaderFault program.now lines.now) }
{
    let notes = notes_in(alloc, lines)?;
    noted_file(alloc, program, flow, &notes)
}
