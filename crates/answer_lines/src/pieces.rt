//! Pieces of lines.
ghost use Rattle.std.specs.Prelude.{◌≡◌, ◌%◌, ◌<◌, ℕ, length, take, OnErr, OnOk};
ghost use Rattle.outside.specs.Outside.{Grew, HasCause};
ghost use Rattle.answer_lines.specs.Line.{digit_at, hexadecimal, hexadecimal_digit};
ghost use Rattle.answer_lines.specs.Put.{piece_text, joined, PutLine};

use itoa::Buffer;
use outside::{Failed, Sink, put_all};

/// A piece of a line.
#[derive(Clone, Copy)]
pub enum Piece<'a> {
    /// Bytes.
    Text(&'a [u8]),
    /// A number, in decimal.
    Number(u128),
    /// A word in eight hexadecimal digits, or `none`.
    Word(Option<u32>),
}

/// Puts the pieces one after another.
pub fn put_pieces<O: Sink>(sink: &mut O, pieces: &[Piece<'_>]) -> Result<(), Failed>
    ensures put { PutLine (O.held sink.old) (O.held sink.new) (joined pieces.now) result }
    ensures cause { HasCause (O.faults sink.old) (O.faults sink.new) result }
{
    for piece in pieces {
        put_piece(sink, piece)?;
    }
    Ok(())
}

fn put_piece<O: Sink>(sink: &mut O, piece: &Piece<'_>) -> Result<(), Failed>
    ensures all { OnOk result (Grew (O.held sink.old) (O.held sink.new) (piece_text piece.now)) }
    ensures front { OnErr result ((n : ℕ) × (n < length (piece_text piece.now))
        × Grew (O.held sink.old) (O.held sink.new) (take n (piece_text piece.now))) }
    ensures cause { HasCause (O.faults sink.old) (O.faults sink.new) result }
{
    match *piece {
        Piece::Text(text) => put_all(sink, text),
        Piece::Number(n) => {
            let mut digits = Buffer::new();
            put_all(sink, digits.format(n).as_bytes())
        }
        Piece::Word(Some(word)) => put_all(sink, &hexadecimal(word)),
        Piece::Word(None) => put_all(sink, b"none"),
    }
}

/// A word in eight hexadecimal digits.
fn hexadecimal(n: u32) -> [u8; 8]
    ensures { result ≡ hexadecimal n }
{
    [
        digit(n >> 28),
        digit(n >> 24),
        digit(n >> 20),
        digit(n >> 16),
        digit(n >> 12),
        digit(n >> 8),
        digit(n >> 4),
        digit(n),
    ]
}

/// The last hexadecimal digit.
fn digit(n: u32) -> u8
    ensures { result ≡ hexadecimal_digit (n % 16) }
{
    let last = (n % 16) as u8;
    if last < 10 {
        b'0' + last
    } else {
        b'a' + (last - 10)
    }
}
