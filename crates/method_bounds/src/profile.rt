//! The lines of a profile: what the activations of each method took, beside its bound.
ghost use Rattle.std.specs.Prelude.{◌≡◌, length};
ghost use Rattle.outside.specs.Outside.{HasCause};
ghost use Rattle.answer_lines.specs.Put.{PutLine, piece_text};
ghost use Rattle.method_bounds.specs.Lines.{name_in};
ghost use Rattle.method_bounds.specs.Profiles.{bound_word, profile_line, profile_lines};

use super::answer::BoundAnswer;
use answer_lines::{Piece, put_pieces};
use method_flow::FlowProgram;
use outside::{Failed, Sink};
use run_follower::watch::Profile;

/// The bound, as a profile's line has it.
fn bound_piece(answer: BoundAnswer) -> Piece<'static>
    ensures { piece_text result ≡ bound_word answer }
{
    match answer {
        BoundAnswer::Cycles(cycles) => Piece::Number(cycles as u128),
        BoundAnswer::Never => Piece::Text(b"never"),
        BoundAnswer::Refused(_) => Piece::Text(b"none"),
    }
}

/// Puts the line of a method of this name, if activations of it have ended.
fn put_row<O: Sink>(
    out: &mut O,
    name: &[u8],
    row: Profile,
    answer: BoundAnswer,
) -> Result<(), Failed>
    ensures put { PutLine (O.held out.old) (O.held out.new) (profile_line name.now row answer) result }
    ensures cause { HasCause (O.faults out.old) (O.faults out.new) result }
{
    if row.count == 0 {
        return Ok(());
    }
    put_pieces(
        out,
        &[
            Piece::Text(name),
            Piece::Text(b" count="),
            Piece::Number(row.count as u128),
            Piece::Text(b" greatest="),
            Piece::Number(row.most as u128),
            Piece::Text(b" total="),
            Piece::Number(row.total),
            Piece::Text(b" misses="),
            Piece::Number(row.misses),
            Piece::Text(b" bound="),
            bound_piece(answer),
            Piece::Text(b"\n"),
        ],
    )
}

/// Puts the lines of a profile, methods rising: `NAME count=C greatest=G total=T misses=X bound=B` of each method of which an activation
/// has ended. Cycles are those between an activation's beginning and its end, callees included. B is a number, `never`, or `none` where
/// no bound of the method is given. No memory is taken.
pub fn put_profile<O: Sink>(
    out: &mut O,
    f: &FlowProgram,
    rows: &[Profile],
    answers: &[BoundAnswer],
) -> Result<(), Failed>
    requires rows { length rows.now ≡ length f.now.methods }
    requires answers { length answers.now ≡ length f.now.methods }
    ensures put { PutLine (O.held out.old) (O.held out.new) (profile_lines (name_in f.now) 0 rows.now answers.now) result }
    ensures cause { HasCause (O.faults out.old) (O.faults out.new) result }
{
    for m in 0..f.method_count() {
        put_row(
            out,
            f.method(m).name(),
            rows[m as usize],
            answers[m as usize],
        )?;
    }
    Ok(())
}
