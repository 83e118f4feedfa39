//! The bounds of all methods of an image, by the bounds of its loops.
ghost use Rattle.std.specs.Prelude.{◌≤◌, length};
ghost use Rattle.base.specs.Sizes.{longest_file};
ghost use Rattle.command_line.specs.Range.{AreSettings};
ghost use Rattle.ask_commands.specs.AllBounds.{AnswersBounds, AnswersBareBounds};

use crate::needs::line_answer;
use analysis_commands::{analysis_of, bounds_in};
use command_line::Settings;
use endings::faults::fault_ending;
use endings::fitting::too_long_ending;
use endings::outcome::Answer;
use jop_core::Bare;
use jopizer::Linked;
use method_bounds::bound_lines;
use std::alloc::Global;

/// The lines of the methods of what was linked, or why there are none.
pub fn bounds_linked(alloc: Global, linked: &Linked, settings: &Settings, bounds: &[u8]) -> Answer
    requires settings { AreSettings settings.now }
    requires short { length bounds.now ≤ longest_file }
    ensures { AnswersBounds linked.now.classes settings.now bounds.now result }
{
    match analysis_of(alloc, linked.program(), settings, bounds) {
        Ok(analysis) => line_answer(bound_lines(
            alloc,
            &analysis.flow,
            &analysis.bounds,
            analysis.timing,
        )),
        Err(fault) => Answer::Ends(fault_ending(settings, fault)),
    }
}

/// The lines of a bare image, which has no methods with names.
pub fn bounds_bare(alloc: Global, image: &Bare, settings: &Settings, bounds: &[u8]) -> Answer
    requires settings { AreSettings settings.now }
    requires short { length bounds.now ≤ longest_file }
    ensures { AnswersBareBounds settings.now image.now bounds.now result }
{
    if let Some(ending) = too_long_ending(image, settings) {
        return Answer::Ends(ending);
    }
    match bounds_in(alloc, bounds) {
        Ok(_) => Answer::Text(Vec::new(alloc)),
        Err(fault) => Answer::Ends(fault_ending(settings, fault)),
    }
}
