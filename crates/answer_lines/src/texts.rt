//! The lines of texts that are refused.
ghost use Rattle.std.specs.Prelude.{◌≡◌, [], ◌∷◌, codes, decimal, false};
ghost use Rattle.std.specs.List.{concat};
ghost use Rattle.outside.specs.Outside.{HasCause};
ghost use Rattle.answer_lines.specs.Said.{Said};
ghost use Rattle.answer_lines.specs.AnalysisLines.{bad_bounds_parts, twice_bound_parts, bad_sizes_parts, twice_size_parts, bad_cert_parts};
ghost use Rattle.answer_lines.specs.AnalysisLines.{bad_lines_parts, twice_lines_parts, bad_facts_parts, twice_fact_parts, no_fact_parts, bad_table_parts};
ghost use Rattle.answer_lines.specs.AnalysisLines.{slot_count_parts};

use crate::{Piece, say_pieces};
use outside::{Failed, Sink};

/// Puts a label and a number.
fn say_number<O: Sink>(sink: &mut O, label: &[u8], number: u64) -> Result<(), Failed>
    ensures said { Said false (concat (label.now ∷ decimal number ∷ codes "\n" ∷ [])) (O.held sink.old) (O.held sink.new) (O.faults sink.old)
        (O.faults sink.new) result }
    ensures cause { HasCause (O.faults sink.old) (O.faults sink.new) result }
{
    say_pieces(
        sink,
        &[
            Piece::Text(label),
            Piece::Number(number as u128),
            Piece::Text(b"\n"),
        ],
    )
}

/// Puts the line of the first line of bounds that is none of their grammar.
pub fn say_bad_bounds<O: Sink>(sink: &mut O, line: u32) -> Result<(), Failed>
    ensures said { Said false (concat (bad_bounds_parts line)) (O.held sink.old) (O.held sink.new) (O.faults sink.old) (O.faults sink.new) result }
    ensures cause { HasCause (O.faults sink.old) (O.faults sink.new) result }
{
    say_number(sink, b"bad bounds line=", line as u64)
}

/// Puts the line of the first line of bounds that bounds a loop once more.
pub fn say_twice_bound<O: Sink>(sink: &mut O, line: u32) -> Result<(), Failed>
    ensures said { Said false (concat (twice_bound_parts line)) (O.held sink.old) (O.held sink.new) (O.faults sink.old) (O.faults sink.new) result }
    ensures cause { HasCause (O.faults sink.old) (O.faults sink.new) result }
{
    say_number(sink, b"twice bound line=", line as u64)
}

/// Puts the line of the first line of lengths that is none of their grammar.
pub fn say_bad_sizes<O: Sink>(sink: &mut O, line: u32) -> Result<(), Failed>
    ensures said { Said false (concat (bad_sizes_parts line)) (O.held sink.old) (O.held sink.new) (O.faults sink.old) (O.faults sink.new) result }
    ensures cause { HasCause (O.faults sink.old) (O.faults sink.new) result }
{
    say_number(sink, b"bad sizes line=", line as u64)
}

/// Puts the line of the first line of lengths that gives one once more.
pub fn say_twice_size<O: Sink>(sink: &mut O, line: u32) -> Result<(), Failed>
    ensures said { Said false (concat (twice_size_parts line)) (O.held sink.old) (O.held sink.new) (O.faults sink.old) (O.faults sink.new) result }
    ensures cause { HasCause (O.faults sink.old) (O.faults sink.new) result }
{
    say_number(sink, b"twice size line=", line as u64)
}

/// Puts the line of the first line of bounds by lines of sources that is none of their grammar.
pub fn say_bad_lines<O: Sink>(sink: &mut O, line: u32) -> Result<(), Failed>
    ensures said { Said false (concat (bad_lines_parts line)) (O.held sink.old) (O.held sink.new) (O.faults sink.old) (O.faults sink.new) result }
    ensures cause { HasCause (O.faults sink.old) (O.faults sink.new) result }
{
    say_number(sink, b"bad lines line=", line as u64)
}

/// Puts the line of the first of these lines that bounds once more what a line before it bounds.
pub fn say_twice_lines<O: Sink>(sink: &mut O, line: u32) -> Result<(), Failed>
    ensures said { Said false (concat (twice_lines_parts line)) (O.held sink.old) (O.held sink.new) (O.faults sink.old) (O.faults sink.new) result }
    ensures cause { HasCause (O.faults sink.old) (O.faults sink.new) result }
{
    say_number(sink, b"twice lines line=", line as u64)
}

/// Puts the line of the first line of facts that is none of their grammar.
pub fn say_bad_facts<O: Sink>(sink: &mut O, line: u32) -> Result<(), Failed>
    ensures said { Said false (concat (bad_facts_parts line)) (O.held sink.old) (O.held sink.new) (O.faults sink.old) (O.faults sink.new) result }
    ensures cause { HasCause (O.faults sink.old) (O.faults sink.new) result }
{
    say_number(sink, b"bad facts line=", line as u64)
}

/// Puts the line of the first line of facts that says something once more.
pub fn say_twice_fact<O: Sink>(sink: &mut O, line: u32) -> Result<(), Failed>
    ensures said { Said false (concat (twice_fact_parts line)) (O.held sink.old) (O.held sink.new) (O.faults sink.old) (O.faults sink.new) result }
    ensures cause { HasCause (O.faults sink.old) (O.faults sink.new) result }
{
    say_number(sink, b"twice fact line=", line as u64)
}

/// Puts the line of the first line of facts that says nothing of the program.
pub fn say_no_fact<O: Sink>(sink: &mut O, line: u32) -> Result<(), Failed>
    ensures said { Said false (concat (no_fact_parts line)) (O.held sink.old) (O.held sink.new) (O.faults sink.old) (O.faults sink.new) result }
    ensures cause { HasCause (O.faults sink.old) (O.faults sink.new) result }
{
    say_number(sink, b"no such fact line=", line as u64)
}

/// Puts the line of the first line of a table of slots that is none of its grammar.
pub fn say_bad_table<O: Sink>(sink: &mut O, line: u32) -> Result<(), Failed>
    ensures said { Said false (concat (bad_table_parts line)) (O.held sink.old) (O.held sink.new) (O.faults sink.old) (O.faults sink.new) result }
    ensures cause { HasCause (O.faults sink.old) (O.faults sink.new) result }
{
    say_number(sink, b"bad table line=", line as u64)
}

/// Puts the line of a table that has so many slots, which are too few or too many.
pub fn say_slot_count<O: Sink>(sink: &mut O, count: u32) -> Result<(), Failed>
    ensures said { Said false (concat (slot_count_parts count)) (O.held sink.old) (O.held sink.new) (O.faults sink.old) (O.faults sink.new) result }
    ensures cause { HasCause (O.faults sink.old) (O.faults sink.new) result }
{
    say_number(sink, b"slots ", count as u64)
}

/// Puts the line of the first line with which no certificate begins.
pub fn say_bad_cert<O: Sink>(sink: &mut O, line: u64) -> Result<(), Failed>
    ensures said { Said false (concat (bad_cert_parts line)) (O.held sink.old) (O.held sink.new) (O.faults sink.old) (O.faults sink.new) result }
    ensures cause { HasCause (O.faults sink.old) (O.faults sink.new) result }
{
    say_number(sink, b"bad cert line=", line)
}
