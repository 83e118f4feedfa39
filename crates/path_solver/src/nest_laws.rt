//! What the proofs take of all graphs and of all sections.
ghost use Rattle.path_solver.specs.Problem.{AreNestLaws};

use loop_nest::laws::{
    dominance_is_antisymmetric, entry_dominates_all, headers_dominate_members,
    loops_are_entered_at_headers, loops_are_nested, reducible_is_reached, walks_lead_on,
};
use section_check::laws::{accepted_bound_iterations, accepted_bound_walks};

/// The laws of graphs and of sections. The function does nothing: its contract is these laws.
pub fn nest_laws()
    ensures { AreNestLaws }
{
    reducible_is_reached();
    headers_dominate_members();
    loops_are_entered_at_headers();
    loops_are_nested();
    entry_dominates_all();
    dominance_is_antisymmetric();
    walks_lead_on();
    accepted_bound_walks();
    accepted_bound_iterations();
}
