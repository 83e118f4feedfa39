//! Laws of the sketch: functions without a body.

ghost use Rattle.micro_sketch.specs.FrameLaws.{FramePlaceMoves, SwitchRunsOn};
ghost use Rattle.micro_sketch.specs.Laws.{MachineFollows, SplitsAnywhere, StackPointerMoves, LowWordIsLoaded, SeenAsSketch};
ghost use Rattle.micro_sketch.specs.Laws.{RunsGoOn, RunsBetweenAlike, CostsHold, RaiseCostHolds, FirstIsReached, BoundaryComesSoon};
ghost use Rattle.micro_sketch.specs.StackLaws.{StackWordIsLoaded};
ghost use Rattle.micro_sketch.specs.StepLaws.{StepsAddUp, AreRunLaws};
ghost use Rattle.micro_sketch.specs.RowLaws.{AreRowLaws};

use micro_flow::laws::costs_are_small;

/// What the sketch comes to in some words, the machine comes to, and a walk of the ROM with it.
pub fn machine_follows_the_sketch()
    ensures { MachineFollows }
{}

/// A machine's words from place 64 on can be split anywhere, if the stack pointer stays.
pub fn sketches_can_be_split_anywhere()
    ensures { SplitsAnywhere }
{}

/// A new stack pointer splits the words elsewhere.
pub fn stack_pointer_moves()
    ensures { StackPointerMoves }
{}

/// A word below place 32 is loaded from where AR says.
pub fn low_word_is_loaded()
    ensures { LowWordIsLoaded }
{}

/// A word from place 64 on is loaded from where AR says, also one past the stack pointer.
pub fn stack_word_is_loaded()
    ensures { StackWordIsLoaded }
{}

/// Each machine in range is what its sketch stands for.
pub fn machines_are_seen_as_sketches()
    ensures { SeenAsSketch }
{}

/// Two runs make one.
pub fn runs_go_on()
    ensures { RunsGoOn }
{}

/// A run goes between any sketches that are like its ends.
pub fn runs_go_between_alike_sketches()
    ensures { RunsBetweenAlike }
{}

/// From an opcode's entry to the next boundary the machine takes at most the opcode's cost and the
/// stalls of its loads.
pub fn opcodes_keep_their_costs()
    ensures { CostsHold }
{}

/// So from the entry of the raise routine.
pub fn raise_keeps_its_cost()
    ensures { RaiseCostHolds }
{}

/// The first boundary that the machine comes to is where its sketch comes to one.
pub fn first_boundary_is_reached()
    ensures { FirstIsReached }
{}

/// A boundary comes soon where the cost is small.
pub fn a_boundary_comes_soon()
    ensures { BoundaryComesSoon }
{}

/// Cycles that follow others make one run with them.
pub fn steps_add_up()
    ensures { StepsAddUp }
{}

/// What some words make of an opcode's entry, a step of the machine does.
pub fn rows_are_steps()
    ensures { AreRowLaws }
{
    costs_are_small();
}

/// Runs in parts make whole runs, and what was put out before doesn't matter to them.
pub fn runs_add_up()
    ensures { AreRunLaws }
{}

/// The place of the frame moves, and a row that goes on in another frame comes to an opcode.
pub fn frames_change()
    ensures moves { FramePlaceMoves }
    ensures runs_on { SwitchRunsOn }
{}
