//! The loops of an image as a text of bounds, with the lines of their sources.
ghost use Rattle.std.specs.Prelude.{◌≡◌, ◌≤◌, ℕ, length, Some, slice_get};
ghost use Rattle.base.specs.Sizes.{longest_file};
ghost use Rattle.method_flow.specs.Flow.{Coded, IsFlowOf};
ghost use Rattle.program_tables.specs.Resolved.{resolved};
ghost use Rattle.name_laws.specs.Written.{written_name};
ghost use Rattle.ask_commands.specs.Headers.{header_ending, AnswersHeaders, AnswersBareHeaders};

use analysis_commands::table_of;
use answer_lines::Cause;
use endings::outcome::{Answer, Ending, Refusal};
use jopizer::Linked;
use method_flow::FlowProgram;
use resolved_program::Program;
use source_headers::{HeaderFault, header_file, notes_in};
use std::alloc::Global;

/// The ending that says why there is no text.
fn header_ending(fault: HeaderFault) -> Ending
    ensures { result ≡ header_ending fault }
{
    match fault {
        HeaderFault::BadLine(line) => Ending::Refused(Refusal::BadLines(line)),
        HeaderFault::TwiceLine(line) => Ending::Refused(Refusal::TwiceLines(line)),
        HeaderFault::Stray(subject) => Ending::NotAnswered(Cause::NoLoop, subject),
        HeaderFault::NoMemory => Ending::NoMemory,
    }
}

/// The text of the headers of a program with this table, or why there is none.
fn headers_by(alloc: Global, program: &Program, flow: &FlowProgram, lines: &[u8]) -> Answer
    requires flow { IsFlowOf (resolved program.now) flow.now }
    requires names { (m : ℕ) (k : Coded) → slice_get flow.now.methods m ≡ Some k → k.name ≡ written_name program.now m }
    requires short { length lines.now ≤ longest_file }
    ensures { AnswersHeaders program.now lines.now result }
{
    match header_file(alloc, program, flow, lines) {
        Ok(text) => Answer::Text(text),
        Err(fault) => Answer::Ends(header_ending(fault)),
    }
}

/// The text of the headers of what was linked, with what the lines say.
pub fn headers_linked(alloc: Global, linked: &Linked, lines: &[u8]) -> Answer
    requires { length lines.now ≤ longest_file }
    ensures { AnswersHeaders linked.now.classes lines.now result }
{
    let program = linked.program();
    match table_of(alloc, program) {
        Ok(flow) => headers_by(alloc, program.program(), &flow, lines),
        Err(_) => Answer::Ends(Ending::NoMemory),
    }
}

/// The text of a bare image, which has no classes.
pub fn headers_bare(alloc: Global, lines: &[u8]) -> Answer
    requires { length lines.now ≤ longest_file }
    ensures { AnswersBareHeaders lines.now result }
{
    match notes_in(alloc, lines) {
        Ok(_) => Answer::Text(Vec::new(alloc)),
        Err(fault) => Answer::Ends(header_ending(fault)),
    }
}
