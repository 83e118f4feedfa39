//! What holds of each nest whose loops have bounds. Each function does nothing: its contract is the law.

ghost use Rattle.path_solver.specs.Laws.{ReachedWithinBounds, LiesOnBoundedWalk};

use loop_nest::laws::headers_dominate_members;

/// A node that is reached is reached by a walk that keeps all bounds.
pub fn reached_within_bounds()
    ensures { ReachedWithinBounds }
{
    // The law is for the proof.
    headers_dominate_members();
}

/// A node that is reached lies on a bounded walk, where a walk leads from it to an exit and keeps the
/// bounds that are 0.
pub fn lies_on_bounded_walk()
    ensures { LiesOnBoundedWalk }
{
    // The law is for the proof.
    headers_dominate_members();
}
