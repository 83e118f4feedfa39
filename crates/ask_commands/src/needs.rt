//! What is found of an image with no settings of a machine: its loops that count, and what a run needs of memory.
ghost use Rattle.std.specs.Prelude.{◌≡◌, ◌≤◌, length};
ghost use Rattle.base.specs.Sizes.{longest_file};
ghost use Rattle.ask_commands.specs.Needs.{memory_ending, bare_need, IsLineAnswer, AnswersLoops, AnswersNeed, AnswersBareNeed};

use analysis_commands::{MemoryRefusal, further_lines, given_by, loop_lines, memory_need};
use answer_lines::{Cause, memory_line};
use base::NoMemory;
use endings::outcome::{Answer, Ending, Refusal};
use endings::settings::words_of;
use jop_core::Bare;
use jopizer::Linked;
use memory_rules::Need;
use std::alloc::Global;

/// The lines of the loops that count of what was linked, with what is known further or by constants alone.
pub fn loops_linked(alloc: Global, linked: &Linked, further: bool) -> Answer
    ensures { AnswersLoops further linked.now.classes result }
{
    if further {
        line_answer(further_lines(alloc, linked.program()))
    } else {
        line_answer(loop_lines(alloc, linked.program()))
    }
}

/// The ending that says why no need of memory is given.
fn memory_ending(refusal: MemoryRefusal) -> Ending
    ensures { result ≡ memory_ending refusal }
{
    match refusal {
        MemoryRefusal::BadBounds(line) => Ending::Refused(Refusal::BadBounds(line)),
        MemoryRefusal::TwiceBound(line) => Ending::Refused(Refusal::TwiceBound(line)),
        MemoryRefusal::BadSizes(line) => Ending::Refused(Refusal::BadSizes(line)),
        MemoryRefusal::TwiceSize(line) => Ending::Refused(Refusal::TwiceSize(line)),
        MemoryRefusal::NoNeed(cause, subject) => {
            Ending::NotAnswered(Cause::Memory(cause), subject)
        }
        MemoryRefusal::NoMemory => Ending::NoMemory,
    }
}

/// The answer that is this text.
pub fn line_answer(line: Result<Vec<u8>, NoMemory>) -> Answer
    ensures { IsLineAnswer line result }
{
    match line {
        Ok(text) => Answer::Text(text),
        Err(_) => Answer::Ends(Ending::NoMemory),
    }
}

/// The line of what a run of what was linked needs of memory, or why there is none.
pub fn memory_linked(alloc: Global, linked: &Linked, bounds: &[u8], sizes: &[u8]) -> Answer
    requires bounds { length bounds.now ≤ longest_file }
    requires sizes { length sizes.now ≤ longest_file }
    ensures { AnswersNeed linked.now bounds.now sizes.now result }
{
    match memory_need(alloc, linked.program(), bounds, sizes) {
        Ok(need) => line_answer(memory_line(alloc, need, words_of(linked))),
        Err(refusal) => Answer::Ends(memory_ending(refusal)),
    }
}

/// What a run of a bare image needs: one frame.
fn bare_need(image: &Bare) -> Need
    ensures { result ≡ bare_need image.now }
{
    Need {
        stack: image.max_locals() as u64 + 5 + image.max_stack() as u64,
        heap: 0,
    }
}

/// The line of what a run of a bare image needs of memory, or why there is none.
pub fn memory_bare(alloc: Global, image: &Bare, bounds: &[u8], sizes: &[u8]) -> Answer
    requires bounds { length bounds.now ≤ longest_file }
    requires sizes { length sizes.now ≤ longest_file }
    ensures { AnswersBareNeed image.now bounds.now sizes.now result }
{
    match given_by(alloc, bounds, sizes) {
        Ok(_) => line_answer(memory_line(alloc, bare_need(image), 0)),
        Err(refusal) => Answer::Ends(memory_ending(refusal)),
    }
}
