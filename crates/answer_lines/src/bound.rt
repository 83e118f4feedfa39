//! The lines of bounds that aren't given.
ghost use Rattle.std.specs.Prelude.{◌≡◌, [], ◌∷◌, ◌++◌, codes, decimal, false};
ghost use Rattle.std.specs.List.{concat};
ghost use Rattle.outside.specs.Outside.{HasCause};
ghost use Rattle.answer_lines.specs.Said.{Said};
ghost use Rattle.answer_lines.specs.Put.{piece_text};
ghost use Rattle.answer_lines.specs.AnalysisLines.{cause_tail, cause_parts};

use crate::{Piece, say_pieces};
use outside::{Failed, Sink};

/// Why no bound of a method is given, in numbers.
#[derive(Clone, Copy)]
pub enum BoundCause {
    /// No method with code has the name, the one that starts the program excepted.
    NoMethod,
    /// Methods that may run while the method does call one another in a ring.
    Recursion,
    /// A loop of the method of this number has several entries.
    Irreducible(u32),
    /// No bound is given for the loop of this method whose header is the instruction at this place.
    MissingBound(u32, u32),
    /// A number of the method of this number, or iterations of its loops together, exceed 64 bits.
    TooLarge(u32),
}

/// Puts a label and what the line names.
pub(crate) fn say_subject<'a, O: Sink>(
    sink: &mut O,
    label: &'a [u8],
    subject: &'a [u8],
) -> Result<(), Failed>
    ensures said { Said false (concat (label.now ∷ subject.now ∷ codes "\n" ∷ [])) (O.held sink.old) (O.held sink.new) (O.faults sink.old)
        (O.faults sink.new) result }
    ensures cause { HasCause (O.faults sink.old) (O.faults sink.new) result }
{
    say_pieces(
        sink,
        &[Piece::Text(label), Piece::Text(subject), Piece::Text(b"\n")],
    )
}

/// Puts a label, the name of a method, and a place of its code.
pub(crate) fn say_place<'a, O: Sink>(
    sink: &mut O,
    label: &'a [u8],
    name: &'a [u8],
    place: u32,
) -> Result<(), Failed>
    ensures said { Said false (concat (label.now ∷ name.now ∷ codes " " ∷ decimal place ∷ codes "\n" ∷ [])) (O.held sink.old) (O.held sink.new)
        (O.faults sink.old) (O.faults sink.new) result }
    ensures cause { HasCause (O.faults sink.old) (O.faults sink.new) result }
{
    say_pieces(
        sink,
        &[
            Piece::Text(label),
            Piece::Text(name),
            Piece::Text(b" "),
            Piece::Number(place as u128),
            Piece::Text(b"\n"),
        ],
    )
}

/// Puts the line of the cause for which no bound is given. The subject is what the line names: each method of the cycle, behind a
/// space, or else the method, and where it is irreducible its nodes, each behind a space.
pub(crate) fn say_cause<O: Sink>(
    sink: &mut O,
    cause: BoundCause,
    subject: &[u8],
) -> Result<(), Failed>
    ensures said { Said false (concat (cause_parts cause subject.now)) (O.held sink.old) (O.held sink.new) (O.faults sink.old) (O.faults sink.new) result }
    ensures cause { HasCause (O.faults sink.old) (O.faults sink.new) result }
{
    say_behind(
        sink,
        Piece::Text(b"bound:"),
        Piece::Text(b""),
        cause,
        subject,
    )
}

/// Puts two pieces and, behind them, a cause and what the line names.
pub(crate) fn say_behind<'a, O: Sink>(
    sink: &mut O,
    first: Piece<'a>,
    second: Piece<'a>,
    cause: BoundCause,
    subject: &'a [u8],
) -> Result<(), Failed>
    ensures said { Said false (piece_text first.entry ++ (piece_text second.entry ++ concat (cause_tail cause subject.now))) (O.held sink.old) (O.held sink.new)
        (O.faults sink.old) (O.faults sink.new) result }
    ensures cause { HasCause (O.faults sink.old) (O.faults sink.new) result }
{
    let end = Piece::Text(b"\n");
    let subject = Piece::Text(subject);
    match cause {
        BoundCause::NoMethod => { say_pieces(sink, &[first, second, Piece::Text(b" no method\n")]) }
        BoundCause::Recursion => say_pieces(
            sink,
            &[first, second, Piece::Text(b" recursion"), subject, end],
        ),
        BoundCause::Irreducible(_) => say_pieces(
            sink,
            &[first, second, Piece::Text(b" irreducible "), subject, end],
        ),
        BoundCause::MissingBound(_, place) => say_pieces(
            sink,
            &[
                first,
                second,
                Piece::Text(b" missing bound "),
                subject,
                Piece::Text(b" "),
                Piece::Number(place as u128),
                end,
            ],
        ),
        BoundCause::TooLarge(_) => say_pieces(
            sink,
            &[first, second, Piece::Text(b" too large "), subject, end],
        ),
    }
}
