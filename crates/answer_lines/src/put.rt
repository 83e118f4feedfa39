//! Lines, put whole.
ghost use Rattle.std.specs.Prelude.{◌≡◌, [], ◌∷◌, codes, decimal, false};
ghost use Rattle.std.specs.List.{concat};
ghost use Rattle.outside.specs.Outside.{HasCause};
ghost use Rattle.answer_lines.specs.Line.{line_of, counts_parts, slot_counts_parts, is_fault};
ghost use Rattle.answer_lines.specs.Put.{PutLine, joined};
ghost use Rattle.answer_lines.specs.Said.{Said};

use crate::line::{AsmLine, Counts, Line, Sizes, SlotCounts};
use crate::link::put_link_line;
use crate::pieces::{Piece, put_pieces};
use outside::{Failed, Sink};

/// Puts a line.
pub fn put_line<O: Sink>(sink: &mut O, line: &Line<'_>) -> Result<(), Failed>
    ensures put { PutLine (O.held sink.old) (O.held sink.new) (line_of line.now) result }
    ensures cause { HasCause (O.faults sink.old) (O.faults sink.new) result }
{
    match *line {
        Line::Ended(counts) => put_counts(sink, b"ended", b"", counts),
        Line::Uncaught(class, counts) => put_counts(sink, b"uncaught ", class, counts),
        Line::Spent(counts) => put_counts(sink, b"spent", b"", counts),
        Line::CycleEnded(counts) => put_slot_counts(sink, b"ended", b"", counts),
        Line::CycleUncaught(class, counts) => put_slot_counts(sink, b"uncaught ", class, counts),
        Line::CycleSpent(counts) => put_slot_counts(sink, b"spent", b"", counts),
        Line::Linked(sizes) => put_sizes(sink, sizes),
        Line::Usage(k) => put_pieces(
            sink,
            &[
                Piece::Text(b"usage: word "),
                Piece::Number(k as u128),
                Piece::Text(b"\n"),
            ],
        ),
        Line::TooBig(name, sum) => put_too_big(sink, name, sum),
        Line::BadImage => put_text(sink, b"bad image\n"),
        Line::NoCircuit => put_text(sink, b"rtl: no circuit\n"),
        Line::Differs { word, kept, linked } => put_differs(sink, word, kept, linked),
        Line::MethodTooLong {
            name,
            blocks,
            limit,
        } => put_method(sink, name, blocks, limit),
        Line::MemoryTooSmall { words, given } => put_memory(sink, words, given),
        Line::Link(ref refusal) => put_link_line(sink, refusal),
        Line::Asm(AsmLine::Broken(line, rule)) => put_broken(sink, line, rule),
        Line::Asm(AsmLine::TooLong(words)) => put_too_long(sink, words),
        Line::ReadFault => put_text(sink, b"read fault\n"),
        Line::WriteFault => put_text(sink, b"write fault\n"),
        Line::NoMemory => put_text(sink, b"no memory\n"),
    }
}

/// Puts a line and, where the sink fails at one that isn't of a fault or of want of memory, the line of a write fault behind
/// the front that was put.
pub fn say<O: Sink>(sink: &mut O, line: &Line<'_>) -> Result<(), Failed>
    ensures said { Said (is_fault line.now) (line_of line.now) (O.held sink.old) (O.held sink.new) (O.faults sink.old) (O.faults sink.new) result }
    ensures cause { HasCause (O.faults sink.old) (O.faults sink.new) result }
{
    if let Err(failed) = put_line(sink, line) {
        if !is_fault(line) {
            let _ = put_text(sink, b"write fault\n");
        }
        return Err(failed);
    }
    Ok(())
}

/// Puts the line of an answer, whose pieces these are, and, where the sink fails at it, the line of a write fault behind the front that
/// was put.
pub fn say_pieces<O: Sink>(sink: &mut O, pieces: &[Piece<'_>]) -> Result<(), Failed>
    ensures said { Said false (joined pieces.now) (O.held sink.old) (O.held sink.new) (O.faults sink.old) (O.faults sink.new) result }
    ensures cause { HasCause (O.faults sink.old) (O.faults sink.new) result }
{
    if let Err(failed) = put_pieces(sink, pieces) {
        let _ = put_text(sink, b"write fault\n");
        return Err(failed);
    }
    Ok(())
}

fn is_fault(line: &Line<'_>) -> bool
    ensures { result ≡ is_fault line.now }
{
    matches!(line, Line::ReadFault | Line::WriteFault | Line::NoMemory)
}

fn put_text<O: Sink>(sink: &mut O, text: &[u8]) -> Result<(), Failed>
    ensures put { PutLine (O.held sink.old) (O.held sink.new) text.now result }
    ensures cause { HasCause (O.faults sink.old) (O.faults sink.new) result }
{
    put_pieces(sink, &[Piece::Text(text)])
}

/// Puts the line of a run with its counts.
fn put_counts<'a, O: Sink>(
    sink: &mut O,
    label: &'a [u8],
    class: &'a [u8],
    counts: Counts,
) -> Result<(), Failed>
    ensures put { PutLine (O.held sink.old) (O.held sink.new) (concat (label.now ∷ class.now ∷ counts_parts counts)) result }
    ensures cause { HasCause (O.faults sink.old) (O.faults sink.new) result }
{
    put_pieces(
        sink,
        &[
            Piece::Text(label),
            Piece::Text(class),
            Piece::Text(b" cycles="),
            Piece::Number(counts.clock as u128),
            Piece::Text(b" hits="),
            Piece::Number(counts.hits as u128),
            Piece::Text(b" misses="),
            Piece::Number(counts.misses as u128),
            Piece::Text(b"\n"),
        ],
    )
}

/// Puts the line of a run of a cyclic executive with its counts.
fn put_slot_counts<'a, O: Sink>(
    sink: &mut O,
    label: &'a [u8],
    class: &'a [u8],
    counts: SlotCounts,
) -> Result<(), Failed>
    ensures put { PutLine (O.held sink.old) (O.held sink.new) (concat (label.now ∷ class.now ∷ slot_counts_parts counts)) result }
    ensures cause { HasCause (O.faults sink.old) (O.faults sink.new) result }
{
    put_pieces(
        sink,
        &[
            Piece::Text(label),
            Piece::Text(class),
            Piece::Text(b" slots="),
            Piece::Number(counts.slots as u128),
            Piece::Text(b" late="),
            Piece::Number(counts.late as u128),
            Piece::Text(b" idle="),
            Piece::Number(counts.idle),
            Piece::Text(b" cycles="),
            Piece::Number(counts.clock as u128),
            Piece::Text(b"\n"),
        ],
    )
}

fn put_sizes<O: Sink>(sink: &mut O, sizes: Sizes) -> Result<(), Failed>
    ensures put { PutLine (O.held sink.old) (O.held sink.new) (line_of (Line.Linked sizes)) result }
    ensures cause { HasCause (O.faults sink.old) (O.faults sink.new) result }
{
    put_pieces(
        sink,
        &[
            Piece::Text(b"linked classes="),
            Piece::Number(sizes.classes as u128),
            Piece::Text(b" methods="),
            Piece::Number(sizes.methods as u128),
            Piece::Text(b" words="),
            Piece::Number(sizes.words as u128),
            Piece::Text(b" bytes="),
            Piece::Number(sizes.bytes as u128),
            Piece::Text(b"\n"),
        ],
    )
}

fn put_too_big<O: Sink>(sink: &mut O, name: &[u8], sum: u128) -> Result<(), Failed>
    ensures put { PutLine (O.held sink.old) (O.held sink.new) (concat (codes "too big " ∷ name.now ∷ codes " sum=" ∷ decimal sum ∷ codes "\n" ∷ [])) result }
    ensures cause { HasCause (O.faults sink.old) (O.faults sink.new) result }
{
    put_pieces(
        sink,
        &[
            Piece::Text(b"too big "),
            Piece::Text(name),
            Piece::Text(b" sum="),
            Piece::Number(sum),
            Piece::Text(b"\n"),
        ],
    )
}

fn put_differs<O: Sink>(
    sink: &mut O,
    word: u32,
    kept: Option<u32>,
    linked: Option<u32>,
) -> Result<(), Failed>
    ensures put { PutLine (O.held sink.old) (O.held sink.new) (line_of (Line.Differs word kept linked)) result }
    ensures cause { HasCause (O.faults sink.old) (O.faults sink.new) result }
{
    put_pieces(
        sink,
        &[
            Piece::Text(b"differs word="),
            Piece::Number(word as u128),
            Piece::Text(b" kept="),
            Piece::Word(kept),
            Piece::Text(b" linked="),
            Piece::Word(linked),
            Piece::Text(b"\n"),
        ],
    )
}

fn put_method<O: Sink>(sink: &mut O, name: &[u8], blocks: u32, limit: u32) -> Result<(), Failed>
    ensures put { PutLine (O.held sink.old) (O.held sink.new)
        (concat (codes "method too long " ∷ name.now ∷ codes " blocks=" ∷ decimal blocks ∷ codes " limit=" ∷ decimal limit ∷ codes "\n" ∷ [])) result }
    ensures cause { HasCause (O.faults sink.old) (O.faults sink.new) result }
{
    put_pieces(
        sink,
        &[
            Piece::Text(b"method too long "),
            Piece::Text(name),
            Piece::Text(b" blocks="),
            Piece::Number(blocks as u128),
            Piece::Text(b" limit="),
            Piece::Number(limit as u128),
            Piece::Text(b"\n"),
        ],
    )
}

fn put_memory<O: Sink>(sink: &mut O, words: u32, given: u32) -> Result<(), Failed>
    ensures put { PutLine (O.held sink.old) (O.held sink.new) (line_of (Line.MemoryTooSmall words given)) result }
    ensures cause { HasCause (O.faults sink.old) (O.faults sink.new) result }
{
    put_pieces(
        sink,
        &[
            Piece::Text(b"memory too small words="),
            Piece::Number(words as u128),
            Piece::Text(b" given="),
            Piece::Number(given as u128),
            Piece::Text(b"\n"),
        ],
    )
}

fn put_broken<O: Sink>(sink: &mut O, line: u32, rule: &[u8]) -> Result<(), Failed>
    ensures put { PutLine (O.held sink.old) (O.held sink.new) (concat (codes "asm: line=" ∷ decimal line ∷ codes " " ∷ rule.now ∷ codes "\n" ∷ [])) result }
    ensures cause { HasCause (O.faults sink.old) (O.faults sink.new) result }
{
    put_pieces(
        sink,
        &[
            Piece::Text(b"asm: line="),
            Piece::Number(line as u128),
            Piece::Text(b" "),
            Piece::Text(rule),
            Piece::Text(b"\n"),
        ],
    )
}

fn put_too_long<O: Sink>(sink: &mut O, words: u32) -> Result<(), Failed>
    ensures put { PutLine (O.held sink.old) (O.held sink.new) (concat (codes "asm: too long words=" ∷ decimal words ∷ codes "\n" ∷ [])) result }
    ensures cause { HasCause (O.faults sink.old) (O.faults sink.new) result }
{
    put_pieces(
        sink,
        &[
            Piece::Text(b"asm: too long words="),
            Piece::Number(words as u128),
            Piece::Text(b"\n"),
        ],
    )
}
