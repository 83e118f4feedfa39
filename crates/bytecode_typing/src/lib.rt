//! Typing of bytecode (JVM Specification SE 8, 4.10.1): what the verifier asks of a program, and that a typed program
//! never gets stuck. The definitions stand in `specs/`: verification types and frames, what is assignable, the check of
//! each instruction with the order of the rules, the walk over a method, typed programs, the states that fit a typing,
//! and what the resolution of classes gives beside it. The functions here do nothing; a caller whose proof needs a law
//! calls its function.
#![tactic(auto)]

ghost use Rattle.bytecode_typing.specs.Examples.{RulesFailFirst};
ghost use Rattle.bytecode_typing.specs.Laws.{TypedProgramsKeep, TypedRunsFit, FittingStatesAreWellFormed, TheBootStateFits, TheWalkFindsATyping};
ghost use Rattle.bytecode_typing.specs.Laws.{ProgramsWithTypingsAreTyped, BareProgramsAreTyped};

mod well_placed;

pub use well_placed::control_stays_at_instructions;

/// In a typed program each state that fits and has not ended has a next state, whatever the input answers, and it fits.
pub fn typed_programs_keep()
    ensures { TypedProgramsKeep }
{}

/// Each state of a run from a state that fits does, where the input gives bytes and its end.
pub fn typed_runs_fit()
    ensures { TypedRunsFit }
{}

/// A state that fits a typing is well formed.
pub fn fitting_states_are_well_formed()
    ensures { FittingStatesAreWellFormed }
{}

/// The state in which a typed program begins fits.
pub fn the_boot_state_fits()
    ensures { TheBootStateFits }
{}

/// The walk over a method ends with frames just where these are a typing, and with a place and a rule just where these
/// are the first that fail.
pub fn the_walk_finds_a_typing()
    ensures { TheWalkFindsATyping }
{}

/// A program is typed where each of its methods has a typing.
pub fn programs_with_typings_are_typed()
    ensures { ProgramsWithTypingsAreTyped }
{
    opcodes::laws::starts_follow_one_another();
    opcodes::laws::instructions_end_within();
}

/// A bare image, seen as a program of one class method of ints, is lawful and typed.
pub fn bare_programs_are_typed()
    ensures { BareProgramsAreTyped }
{
    opcodes::laws::starts_follow_one_another();
    opcodes::laws::instructions_end_within();
}

/// One small code for each rule of the verifier, with the place at which it fails first.
pub fn rules_fail_first()
    ensures { RulesFailFirst }
{}
