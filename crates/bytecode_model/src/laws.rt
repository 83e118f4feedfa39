//! Laws of the definitions in `specs/`. The functions do nothing; a caller whose proof needs a law calls its function.

ghost use Rattle.bytecode_model.specs.Examples.{WorkedExamples};
ghost use Rattle.bytecode_model.specs.Raises.{OnlyMarkedOnesRaise};
ghost use Rattle.bytecode_model.specs.Supported.{RowsAreOfTheirOpcodes};

/// The opcodes that have a row, by the mnemonics of the standard, are those that are supported.
pub fn rows_are_of_their_opcodes()
    ensures { RowsAreOfTheirOpcodes }
{}

/// Only an instruction whose opcode is marked as one that may raise comes to a raising state.
pub fn only_marked_ones_raise()
    ensures { OnlyMarkedOnesRaise }
{}

/// Steps that were worked out by hand.
pub fn worked_examples()
    ensures { WorkedExamples }
{}
