//! The lines of what a run needs of memory, and of needs that aren't given.
ghost use Rattle.std.specs.Prelude.{◌≡◌, IfOk, false};
ghost use Rattle.std.specs.List.{concat};
ghost use Rattle.outside.specs.Outside.{HasCause};
ghost use Rattle.answer_lines.specs.Said.{Said};
ghost use Rattle.answer_lines.specs.MemoryLines.{memory_line, need_cause_parts};

use crate::bound::{say_place, say_subject};
use crate::summary::put_number;
use base::NoMemory;
use memory_rules::{Need, NeedCause};
use outside::{Failed, Sink};
use std::alloc::Global;

/// Puts the line of the cause for which no need of memory is given. The subject is what the line names: each method of the cycle,
/// behind a space, or else the method, and where it is irreducible its nodes, each behind a space.
pub(crate) fn say_need_cause<O: Sink>(
    sink: &mut O,
    cause: NeedCause,
    subject: &[u8],
) -> Result<(), Failed>
    ensures said { Said false (concat (need_cause_parts cause subject.now)) (O.held sink.old) (O.held sink.new) (O.faults sink.old) (O.faults sink.new) result }
    ensures cause { HasCause (O.faults sink.old) (O.faults sink.new) result }
{
    match cause {
        NeedCause::Recursion => say_subject(sink, b"memory: recursion", subject),
        NeedCause::Irreducible(_) => say_subject(sink, b"memory: irreducible ", subject),
        NeedCause::MissingBound(_, place) => {
            say_place(sink, b"memory: missing bound ", subject, place)
        }
        NeedCause::MissingSize(_, place) => {
            say_place(sink, b"memory: missing size ", subject, place)
        }
        NeedCause::TooLarge(_) => say_subject(sink, b"memory: too large ", subject),
    }
}

/// The line of what a run needs of memory, in words: for its frames, for an image of so many words, and for its objects.
pub fn memory_line(alloc: Global, need: Need, image: u32) -> Result<Vec<u8>, NoMemory>
    ensures { IfOk result (λ text. text.items ≡ memory_line need image) }
{
    let mut text = Vec::new(alloc);
    put_number(&mut text, b"memory stack=", need.stack)?;
    put_number(&mut text, b" image=", image as u64)?;
    put_number(&mut text, b" heap=", need.heap)?;
    text.push(b'\n')?;
    Ok(text)
}
