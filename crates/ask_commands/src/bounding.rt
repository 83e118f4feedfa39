//! Bounding a method of an image, by the bounds of its loops, in the shape of the method cache that is asked for or in each.
ghost use Rattle.std.specs.Prelude.{◌≡◌, ◌≤◌, length};
ghost use Rattle.base.specs.Sizes.{longest_file};
ghost use Rattle.command_line.specs.Range.{AreSettings};
ghost use Rattle.ask_commands.specs.Bounding.{cause_ending, AnswersBound, BoundsBare, AnswersShapes, EndsNoMethod};

use crate::shapes::bound_shapes;
use analysis_commands::{NotBounded, bound_bare, bound_program};
use answer_lines::Cause;
use command_line::Settings;
use endings::faults::fault_ending;
use endings::fitting::too_long_ending;
use endings::outcome::{Answer, Ending};
use jop_core::Bare;
use jopizer::Linked;
use std::alloc::Global;

/// The ending that says why no bound is given.
pub fn cause_ending(settings: &Settings, cause: NotBounded) -> Ending
    ensures { result ≡ cause_ending settings.now cause }
{
    match cause {
        NotBounded::NoAnalysis(fault) => fault_ending(settings, fault),
        NotBounded::Forbidden(cause, subject) => {
            Ending::NotAnswered(Cause::Bound(cause), subject)
        }
        NotBounded::NoMemory => Ending::NoMemory,
    }
}

/// The text of a certificate of the method of this name of what was linked, or why no bound is given.
pub fn bound_linked(
    alloc: Global,
    linked: &Linked,
    settings: &Settings,
    name: &[u8],
    bounds: &[u8],
) -> Answer
    requires settings { AreSettings settings.now }
    requires short { length bounds.now ≤ longest_file }
    ensures { AnswersBound linked.now.classes settings.now bounds.now name.now result }
{
    // The law is for the proof.
    bound_laws::soundness::certificates_are_sound();
    match bound_program(alloc, linked.program(), settings, name, bounds) {
        Ok(text) => Answer::Text(text),
        Err(cause) => Answer::Ends(cause_ending(settings, cause)),
    }
}

/// How the bounding of a method of a bare image ends.
pub fn bound_bare_image(alloc: Global, image: &Bare, settings: &Settings, bounds: &[u8]) -> Ending
    requires settings { AreSettings settings.now }
    requires short { length bounds.now ≤ longest_file }
    ensures { BoundsBare settings.now image.now bounds.now result }
{
    match too_long_ending(image, settings) {
        Some(ending) => ending,
        None => cause_ending(settings, bound_bare(alloc, bounds)),
    }
}

/// The lines of the bounds of the method of this name of what was linked in each shape of the method cache, or why none is given.
pub fn shapes_linked(
    alloc: Global,
    linked: &Linked,
    settings: &Settings,
    name: &[u8],
    bounds: &[u8],
) -> Answer
    requires settings { AreSettings settings.now }
    requires short { length bounds.now ≤ longest_file }
    ensures { AnswersShapes linked.now.classes settings.now bounds.now name.now result }
{
    match bound_shapes(alloc, linked.program(), settings, name, bounds) {
        Ok(text) => Answer::Text(text),
        Err(cause) => Answer::Ends(cause_ending(settings, cause)),
    }
}

/// Why no bound of a method of a bare image is given in any shape.
pub fn shapes_bare(alloc: Global, settings: &Settings, bounds: &[u8]) -> Ending
    requires { length bounds.now ≤ longest_file }
    ensures { EndsNoMethod settings.now bounds.now result }
{
    cause_ending(settings, bound_bare(alloc, bounds))
}
