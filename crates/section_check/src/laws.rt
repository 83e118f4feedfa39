//! What accepted sections show. Each function does nothing: its contract is the law.

ghost use Rattle.section_check.specs.Laws.{OwnBoundsSuffice, NoValueNoExit, AcceptedBoundWalks, AcceptedBoundIterations};
ghost use Rattle.section_check.specs.Answering.{AnswersAreOne};
ghost use Rattle.section_check.specs.Regions.{MarkedStaysAccepted};
ghost use Rattle.section_check.specs.Charges.{CostsAreCharged, StartsPayLoads, EdgesPayLoads};
ghost use Rattle.section_check.specs.Entering.{RegionsAreApart, LoopsAreEnteredAtHeaders};
ghost use Rattle.section_check.specs.Renumbering.{RenumberedStaysAccepted, RenumberedStaysInForm};

use loop_nest::laws::dominance_is_antisymmetric;

/// A walk in a part of the graph that keeps the bounds of that part's own loops keeps those of a
/// section's loops.
pub fn own_bounds_suffice()
    ensures { OwnBoundsSuffice }
{}

/// Where an accepted section has no value, no exit is reached from node 0, whatever the bounds.
pub fn no_value_no_exit()
    ensures { NoValueNoExit }
{}

/// An accepted section's value bounds each walk that keeps all bounds.
pub fn accepted_bound_walks()
    ensures { AcceptedBoundWalks }
{}

/// The iteration cost of a loop of an accepted section bounds each of its iterations.
pub fn accepted_bound_iterations()
    ensures { AcceptedBoundIterations }
{
    // The law is for the proof.
    dominance_is_antisymmetric();
}

/// An accepted section stays accepted, with its value, where loops with loads are marked as regions of
/// which none lies in another.
pub fn marked_stays_accepted()
    ensures { MarkedStaysAccepted }
{}

/// A section has one answer, so that all checks that answer rightly answer the same.
pub fn answers_are_one()
    ensures { AnswersAreOne }
{}

/// What a walk costs is what its start, its nodes and its edges are charged.
pub fn costs_are_charged()
    ensures { CostsAreCharged }
{}

/// A start in a loop pays its load, and so does an edge into it from outside.
pub fn entries_pay_loads()
    ensures starts { StartsPayLoads }
    ensures edges { EdgesPayLoads }
{}

/// No node of a well placed section is in two regions.
pub fn regions_are_apart()
    ensures { RegionsAreApart }
{}

/// An edge enters a loop of a well placed section at its header alone.
pub fn loops_are_entered_at_headers()
    ensures { LoopsAreEnteredAtHeaders }
{}

/// An accepted section stays accepted, with its value, and in form, where the nodes have other numbers in
/// the same order, and its nodes, headers and members, the costs, the edges and the exits go with them.
pub fn renumbered_stays_accepted()
    ensures accepted { RenumberedStaysAccepted }
    ensures form { RenumberedStaysInForm }
{}
