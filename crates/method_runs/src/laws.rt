//! Laws of walks of frames. The functions do nothing; a caller whose proof needs a law calls its function.

ghost use Rattle.method_runs.specs.Laws.{BootWalksStand, RunsHaveWalks, StepsFollowWalks, UnknownWalksStand, WalksAreOfGraphs};

/// A walk of a method is a walk of its graph, and comes to nodes that are reached.
pub fn walks_are_of_graphs()
    ensures { WalksAreOfGraphs }
{}

/// Each step goes along an edge of the top frame's method, makes a frame, leaves one or ends the program, and the walks follow.
pub fn steps_follow_walks()
    ensures { StepsFollowWalks }
{
    method_flow::laws::steps_have_shapes();
    method_flow::laws::rows_are_of_their_kinds();
    bytecode_typing::fitting_states_are_well_formed();
}

/// Along each run the frames that were made since stand at the ends of their walks.
pub fn runs_have_walks()
    ensures { RunsHaveWalks }
{
    steps_follow_walks();
    bytecode_typing::typed_programs_keep();
    bytecode_typing::typed_runs_fit();
}

/// So they do where nothing is known of the frames of the first state, and where it is the boot state.
pub fn first_walks_stand()
    ensures unknown { UnknownWalksStand }
    ensures boot { BootWalksStand }
{}
