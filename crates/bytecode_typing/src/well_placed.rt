//! Well placed programs (JVM Specification SE 8, 4.7.3 and 4.9.1): whole instructions, no fall past the end of a code, targets, ranges
//! and handlers at the starts of instructions, and operands that name what is there. The definition stands in `specs/`. The functions
//! here do nothing; a caller whose proof needs a law calls its function.

ghost use Rattle.bytecode_typing.specs.PlacedLaws.{ControlStays};

use opcodes::laws::first_bad_is_a_start;

/// In a well placed program control goes from each instruction to instructions alone, and each of them has a row.
pub fn control_stays_at_instructions()
    ensures { ControlStays }
{}
