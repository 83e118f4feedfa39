//! What holds of each method cache. Each function does nothing: its contract is the law.

ghost use Rattle.method_cache.specs.Regions.LookUps.{EachIsLoadedOnce, LoadsKeepTheSum, LookUpsKeepSizes, LookUpsFollow, LoadsFollow, StallsFollow};

/// Look-ups of methods that fit the cache together load each of them at most once, whatever the cache
/// held.
pub fn each_member_is_loaded_once()
    ensures { EachIsLoadedOnce }
{}

/// So they stall at most as long as the loads of all of these methods together.
pub fn loads_keep_the_sum()
    ensures { LoadsKeepTheSum }
{}

/// Look-ups keep the sizes of the cache.
pub fn look_ups_keep_sizes()
    ensures { LookUpsKeepSizes }
{}

/// Look-ups behind others find the cache as those leave it.
pub fn look_ups_follow()
    ensures { LookUpsFollow }
{}

/// They load what that cache lacks.
pub fn loads_follow()
    ensures { LoadsFollow }
{}

/// The stalls of look-ups one after another add up.
pub fn stalls_follow()
    ensures { StallsFollow }
{}
