//! What holds of each stay. The function does nothing: its contract is the law.

ghost use Rattle.bound_laws.specs.Soundness.Stays.{StaysArePaid};

use method_cache::regions::laws::{
    loads_keep_the_sum, look_ups_follow, look_ups_keep_sizes, stalls_follow,
};

/// A stay takes at most what its start, its nodes and its edges are charged.
pub fn stays_are_paid()
    ensures { StaysArePaid }
{
    // The laws are for the proof.
    loads_keep_the_sum();
    look_ups_keep_sizes();
    look_ups_follow();
    stalls_follow();
}
