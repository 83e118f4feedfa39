//! What an analysis of a program stands on.
ghost use Rattle.std.specs.Prelude.{◌≡◌, ◌≤◌, ℕ, length, IfOk, IfErr, Some, slice_get};
ghost use Rattle.base.specs.Sizes.{longest_file};
ghost use Rattle.command_line.specs.Range.{AreSettings};
ghost use Rattle.bound_texts.specs.Loops.Grammar.{IsRead};
ghost use Rattle.method_flow.specs.Flow.{Coded, IsFlowOf};
ghost use Rattle.program_tables.specs.Resolved.{resolved};
ghost use Rattle.name_laws.specs.Written.{written_name};
ghost use Rattle.analysis_commands.specs.Analysis.{timing_of, IsAnalysisOf, IsAnalysisFault};
ghost use Rattle.answer_lines.specs.BoundsFaults.{IsBoundsFault};
ghost use Rattle.analysis_commands.specs.Answers.{IsMethodTooLong};

use crate::names::table_name;
use answer_lines::AnalysisFault;
use base::NoMemory;
use bound_texts::loops::{Bounds, BoundsFault, read_bounds};
use bytecode_verifier::Verified;
use command_line::Settings;
use flow_table::flow_of;
use jopizer::methods::{TooLong, first_too_long};
use method_flow::{FlowProgram, Timing};
use std::alloc::Global;

/// The table of a program, the bounds of its loops, and the timing of the machine.
#[derive(Drop)]
pub struct Analysis {
    pub flow: FlowProgram,
    pub bounds: Bounds,
    pub timing: Timing,
}

/// The timing of the machine that these settings give.
pub fn timing_of(settings: &Settings) -> Timing
    ensures { result ≡ timing_of settings.now }
{
    Timing {
        read: settings.read,
        write: settings.write,
        blocks: settings.blocks,
        block_words: settings.block_words,
    }
}

/// The bounds that a text gives.
pub fn bounds_in(alloc: Global, text: &[u8]) -> Result<Bounds, AnalysisFault>
    requires { length text.now ≤ longest_file }
    ensures read { IfOk result (IsRead text.now) }
    ensures fault { IfErr result (IsBoundsFault text.now) }
{
    match read_bounds(alloc, text) {
        Ok(bounds) => Ok(bounds),
        Err(BoundsFault::Line(line)) => Err(AnalysisFault::BadBounds(line)),
        Err(BoundsFault::Twice(line)) => Err(AnalysisFault::TwiceBound(line)),
        Err(BoundsFault::NoMemory) => Err(AnalysisFault::NoMemory),
    }
}

/// The table of a program.
pub fn table_of(alloc: Global, program: &Verified) -> Result<FlowProgram, NoMemory>
    ensures flow { IfOk result (IsFlowOf (resolved program.now)) }
    ensures names { IfOk result (λ f. (m : ℕ) (k : Coded) → slice_get f.methods m ≡ Some k → k.name ≡ written_name program.now m) }
{
    program.is_typed();
    flow_of(alloc, program.program())
}

/// Why a program with this table isn't analysed, where this method's code doesn't fit the method cache.
fn too_long(alloc: Global, flow: &FlowProgram, long: TooLong) -> AnalysisFault
    ensures { IsMethodTooLong flow.now long result }
{
    match table_name(alloc, flow, long.method) {
        Ok(name) => AnalysisFault::MethodTooLong(long.method, name, long.blocks),
        Err(_) => AnalysisFault::NoMemory,
    }
}

/// The same with the table of the program, whose codes fit the method cache.
fn analysis_with(
    alloc: Global,
    flow: FlowProgram,
    timing: Timing,
    bounds: &[u8],
) -> Result<Analysis, AnalysisFault>
    requires { length bounds.now ≤ longest_file }
    ensures parts { IfOk result (λ a. (a.flow ≡ flow) × (a.timing ≡ timing) × IsRead bounds.now a.bounds) }
    ensures fault { IfErr result (IsBoundsFault bounds.now) }
{
    match bounds_in(alloc, bounds) {
        Ok(bounds) => Ok(Analysis {
            flow,
            bounds,
            timing,
        }),
        Err(fault) => {
            drop(flow);
            Err(fault)
        }
    }
}

/// What an analysis of a program stands on, with the settings of a machine and the text of the bounds of loops.
///
/// # Errors
///
/// [`AnalysisFault::MethodTooLong`] exactly where a code doesn't fit the method cache. Else [`AnalysisFault::BadBounds`] or
/// [`AnalysisFault::TwiceBound`], exactly where a line of the text is refused, with the first such line.
pub fn analysis_of(
    alloc: Global,
    program: &Verified,
    settings: &Settings,
    bounds: &[u8],
) -> Result<Analysis, AnalysisFault>
    requires settings { AreSettings settings.now }
    requires short { length bounds.now ≤ longest_file }
    ensures analysis { IfOk result (IsAnalysisOf program.now settings.now bounds.now) }
    ensures fault { IfErr result (IsAnalysisFault program.now settings.now bounds.now) }
{
    let Ok(flow) = table_of(alloc, program) else {
        return Err(AnalysisFault::NoMemory);
    };
    match first_too_long(program.program(), settings.blocks, settings.block_words) {
        Some(long) => Err(too_long(alloc, &flow, long)),
        None => analysis_with(alloc, flow, timing_of(settings), bounds),
    }
}
