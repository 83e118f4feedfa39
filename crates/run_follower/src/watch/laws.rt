//! What the followers come to over all that they are handed.
ghost use Rattle.run_follower.specs.Watch.Promises.{SlotsAreTold, SlotsAreExact, EachHasARow, ProfilesAreTold, ProfilesAreExact, RisingAreFew};
ghost use Rattle.run_follower.specs.Watch.Worked.{WorkedRun};

/// Whatever a slot counter is handed, its numbers are those of the activations that it could hold, each at most its greatest.
pub fn slots_are_told()
    ensures { SlotsAreTold }
{}

/// Where the frames stay within what was said at the start, a slot counter's numbers are those of all activations.
pub fn slots_are_exact()
    ensures { SlotsAreExact }
{}

/// Whatever the totals of methods are handed, each row is that of the method's activations that they could hold, each sum at most its greatest.
pub fn profiles_are_told()
    ensures rows { EachHasARow }
    ensures told { ProfilesAreTold }
{}

/// Where the frames stay within what was said at the start, each row is that of all activations of the method.
pub fn profiles_are_exact()
    ensures { ProfilesAreExact }
{}

/// Boundaries whose clocks rise are few enough for the counts.
pub fn rising_are_few()
    ensures { RisingAreFew }
{}

/// A run of a few boundaries, with calls within calls and exceptions that leave frames, and what is told of it.
pub fn worked_run()
    ensures { WorkedRun }
{}
