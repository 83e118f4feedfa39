//! Laws of the definitions in `specs/`. The functions do nothing; a caller whose proof needs a law calls its function.

ghost use Rattle.method_flow.specs.Costs.{InvokesKeepTheGreatest};
ghost use Rattle.method_flow.specs.Examples.{WorkedExamples};
ghost use Rattle.method_flow.specs.Kinds.{CallsAreInvokes, RowsAreOfTheirKinds};
ghost use Rattle.method_flow.specs.Shapes.{StepsHaveShapes};
ghost use Rattle.method_flow.specs.Walks.{CallersRaise, CallersReturn, DropsAreExits, EndingIsAWalk, MovesAreLive, ReturnsAreExits};

/// Each step of a state within a program moves along an edge of the top frame's method, enters a method that the invoke may
/// run, returns, drops the frame, or ends the program.
pub fn steps_have_shapes()
    ensures { StepsHaveShapes }
{
    bytecode_model::laws::only_marked_ones_raise();
}

/// What a frame does is a walk of its method's graph: its steps go along edges that a run can take, it is left at an exit, and
/// its caller goes along an edge behind its invoke or to the raise step there.
pub fn steps_go_along_edges()
    ensures moves { MovesAreLive }
    ensures returns { ReturnsAreExits }
    ensures drops { DropsAreExits }
    ensures callers_return { CallersReturn }
    ensures callers_raise { CallersRaise }
{}

/// A method can end exactly where a walk that a run can take leads from its first instruction to an exit.
pub fn ending_is_a_walk()
    ensures { EndingIsAWalk }
{}

/// Where an instruction leads is told by its opcode's kind and the places that its operands name.
pub fn rows_are_of_their_kinds()
    ensures { RowsAreOfTheirKinds }
{
    opcodes::laws::targets_fit_the_kind();
}

/// A call's row stands at one of the four invokes that name a method, which has no cases.
pub fn calls_are_invokes()
    ensures { CallsAreInvokes }
{
    opcodes::laws::instructions_are_read();
}

/// An invoke costs at most what the dearest of the four invokes costs.
pub fn invokes_keep_the_greatest()
    ensures { InvokesKeepTheGreatest }
{
    opcodes::laws::instructions_are_read();
    micro_flow::laws::costs_are_small();
}

/// Graphs that were worked out by hand.
pub fn worked_examples()
    ensures { WorkedExamples }
{}
