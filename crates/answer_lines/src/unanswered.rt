//! The lines of questions about an image that aren't answered.
ghost use Rattle.std.specs.Prelude.{false};
ghost use Rattle.std.specs.List.{concat};
ghost use Rattle.outside.specs.Outside.{HasCause};
ghost use Rattle.answer_lines.specs.Said.{Said};
ghost use Rattle.answer_lines.specs.Unanswered.{unanswered_parts};

use crate::bound::{BoundCause, say_cause, say_subject};
use crate::memory::say_need_cause;
use crate::plan::{PlanCause, say_plan_cause};
use memory_rules::NeedCause;
use outside::{Failed, Sink};

/// Why what is asked of an image isn't answered, in numbers.
#[derive(Clone, Copy)]
pub enum Cause {
    /// No bound of a method is given.
    Bound(BoundCause),
    /// No need of memory is given.
    Memory(NeedCause),
    /// No plan of a cyclic executive is given.
    Plan(PlanCause),
    /// A bound is said of a line of a file, or of a place of a method, that heads no loop.
    NoLoop,
}

/// Puts the line of the cause for which what is asked isn't answered. The subject is what the line names.
pub fn say_unanswered<O: Sink>(sink: &mut O, cause: Cause, subject: &[u8]) -> Result<(), Failed>
    ensures said { Said false (concat (unanswered_parts cause subject.now)) (O.held sink.old) (O.held sink.new) (O.faults sink.old) (O.faults sink.new) result }
    ensures cause { HasCause (O.faults sink.old) (O.faults sink.new) result }
{
    match cause {
        Cause::Bound(cause) => say_cause(sink, cause, subject),
        Cause::Memory(cause) => say_need_cause(sink, cause, subject),
        Cause::Plan(cause) => say_plan_cause(sink, cause, subject),
        Cause::NoLoop => say_subject(sink, b"no loop ", subject),
    }
}
