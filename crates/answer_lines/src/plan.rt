//! The lines of plans of a cyclic executive that aren't kept.
ghost use Rattle.std.specs.Prelude.{◌≡◌, false};
ghost use Rattle.std.specs.List.{concat};
ghost use Rattle.outside.specs.Outside.{HasCause};
ghost use Rattle.certificates.specs.CertLines.{bound_text};
ghost use Rattle.answer_lines.specs.Put.{piece_text};
ghost use Rattle.answer_lines.specs.Said.{Said};
ghost use Rattle.answer_lines.specs.PlanLines.{late_parts, plan_parts};

use crate::bound::{BoundCause, say_behind};
use crate::{Piece, say_pieces};
use outside::{Failed, Sink};

/// Why a plan isn't given, in numbers: of the first slot for which it can't be, counted from 0.
#[derive(Clone, Copy)]
pub enum PlanCause {
    /// No bound of the slot's method is given.
    Slot(u32, BoundCause),
    /// The bound in cycles passes the slot's length, or the method never ends.
    Late {
        slot: u32,
        bound: Option<u64>,
        length: u64,
    },
}

/// A bound in cycles, or `never`.
fn bound_piece(bound: Option<u64>) -> Piece<'static>
    ensures { piece_text result ≡ bound_text bound }
{
    match bound {
        Some(cycles) => Piece::Number(cycles as u128),
        None => Piece::Text(b"never"),
    }
}

/// Puts the line of a slot whose length is passed.
fn say_late<O: Sink>(sink: &mut O, slot: u32, bound: Option<u64>, length: u64) -> Result<(), Failed>
    ensures said { Said false (concat (late_parts slot bound length)) (O.held sink.old) (O.held sink.new) (O.faults sink.old) (O.faults sink.new) result }
    ensures cause { HasCause (O.faults sink.old) (O.faults sink.new) result }
{
    say_pieces(
        sink,
        &[
            Piece::Text(b"plan: late "),
            Piece::Number(slot as u128),
            Piece::Text(b" bound="),
            bound_piece(bound),
            Piece::Text(b" length="),
            Piece::Number(length as u128),
            Piece::Text(b"\n"),
        ],
    )
}

/// Puts the line of the cause for which no plan is given. The subject is what the line names where a slot's method has no bound: each
/// method of the cycle, behind a space, or else the method, and where it is irreducible its nodes, each behind a space.
pub(crate) fn say_plan_cause<O: Sink>(
    sink: &mut O,
    cause: PlanCause,
    subject: &[u8],
) -> Result<(), Failed>
    ensures said { Said false (concat (plan_parts cause subject.now)) (O.held sink.old) (O.held sink.new) (O.faults sink.old) (O.faults sink.new) result }
    ensures cause { HasCause (O.faults sink.old) (O.faults sink.new) result }
{
    match cause {
        PlanCause::Slot(slot, cause) => say_behind(
            sink,
            Piece::Text(b"plan: slot "),
            Piece::Number(slot as u128),
            cause,
            subject,
        ),
        PlanCause::Late {
            slot,
            bound,
            length,
        } => say_late(sink, slot, bound, length),
    }
}
