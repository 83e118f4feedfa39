//! Laws of the definitions in `specs/`. The functions do nothing; a caller whose proof needs a law calls its function.

ghost use Rattle.activations.specs.Steps.{PlacesTellWords, StepsAreTold};
ghost use Rattle.activations.specs.Trees.{ActivationsAreTrees, ActivationsAreWalks, StaysAreWalks, StaysKeep};

/// The words of methods' codes are told by the methods' places in memory.
pub fn places_tell_words()
    ensures { PlacesTellWords }
{}

/// What a step from one boundary to the next takes: cycles of the microcode, at most the own cost of the node at which the top
/// frame stands, and the stall of its look-up; and what it does to the frames.
pub fn steps_are_told()
    ensures { StepsAreTold }
{
    jop_core::laws::cycles_keep();
    method_flow::laws::steps_have_shapes();
    bytecode_typing::fitting_states_are_well_formed();
}

/// An activation is an invoke and the stay of the frame that it makes, with the stays of all frames that are made meanwhile.
pub fn activations_are_trees()
    ensures { ActivationsAreTrees }
{
    method_flow::laws::steps_have_shapes();
    bytecode_typing::fitting_states_are_well_formed();
}

/// The nodes of a stay are a walk that a run can take to an exit.
pub fn stays_are_walks()
    ensures { StaysAreWalks }
{
    method_flow::laws::steps_go_along_edges();
    method_flow::laws::ending_is_a_walk();
}

/// The walk of an activation leads from its method's first instruction to an exit, so the method can end.
pub fn activations_are_walks()
    ensures { ActivationsAreWalks }
{
    activations_are_trees();
    stays_are_walks();
    method_flow::laws::ending_is_a_walk();
}

/// Where an activation keeps the bounds of loops, so do all stays within it.
pub fn stays_keep()
    ensures { StaysKeep }
{}
