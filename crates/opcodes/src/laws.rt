//! Laws of the definitions in `specs/`: what the starts of a code are, and that instructions partition it. The
//! functions do nothing; a caller whose proof needs a law calls its function.

ghost use Rattle.std.specs.Prelude.{ℕ, ◌<◌, List};
ghost use Rattle.opcodes.specs.declared.instruction.Instr.{Instr};
ghost use Rattle.opcodes.specs.Reading.{InstructionsAreOfTheirForm, WideOnesAreOfTheirForm, WideOnesMayBeWide};
ghost use Rattle.opcodes.specs.Start.{AreStarts, IsFirstBad, IsPartition};
ghost use Rattle.opcodes.specs.Target.{TargetsFitKind, WholeIsWithin, IsLocal};

/// A whole instruction is not empty and ends within the code, and a switch ends with its cases.
pub fn instructions_end_within()
    ensures { (code : List ℕ) → (pc : ℕ) → WholeIsWithin code pc }
{}

/// An instruction depends on its own bytes alone: where another code has them at the same place, it has that instruction.
pub fn instructions_are_local()
    ensures { (code other : List ℕ) (pc : ℕ) (instr : Instr) → IsLocal code other pc instr }
{}

/// What an opcode's kind says of the targets that the instruction names.
pub fn targets_fit_the_kind()
    ensures { (code : List ℕ) (pc : ℕ) (instr : Instr) → instr.op < 256 → TargetsFitKind code pc instr }
{}

/// The starts of a code are 0 and the place behind each whole instruction that begins at a start, and no others.
pub fn starts_follow_one_another()
    ensures { (code : List ℕ) → AreStarts code }
{}

/// The place of the verifier's rule on opcodes is the one start from which the code is not a whole instruction.
pub fn first_bad_is_a_start()
    ensures { (code : List ℕ) → IsFirstBad code }
{}

/// Where a code is whole instructions, each of its bytes belongs to exactly one of them.
pub fn instructions_partition_the_code()
    ensures { (code : List ℕ) → IsPartition code }
{}

/// What an instruction is, field by field, where its opcode is known.
pub fn instructions_are_read()
    ensures forms { InstructionsAreOfTheirForm }
    ensures wide_opcodes { WideOnesMayBeWide }
    ensures wide_forms { WideOnesAreOfTheirForm }
{}
