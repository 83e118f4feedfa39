//! Laws of the words of the ROM, of every walk. The functions do nothing; a caller whose proof needs a law
//! calls its function.

ghost use Rattle.std.specs.Prelude.{◌≡◌, ◌<◌};
ghost use Rattle.micro_flow.specs.Ceilings.{CostsKeepCeilings, RaiseKeepsCeiling};
ghost use Rattle.micro_flow.specs.Costs.{CostsAreSmall, RaiseIsSmall};
ghost use Rattle.micro_flow.specs.Closed.{EntriesInside, RaiseApart, ReachedByDispatch, RaisesWhereItMay};

/// No word goes on to an opcode's entry, by falling through or by a branch.
pub fn entries_are_reached_by_dispatch()
    ensures inside { EntriesInside }
    ensures apart { RaiseApart }
    ensures dispatch { ReachedByDispatch }
{}

/// Only an opcode that may raise has a row that leads to the raise routine.
pub fn opcodes_raise_where_they_may()
    ensures { RaisesWhereItMay }
{}

/// What an opcode, or a step of the raise routine, costs is at most its ceiling, and is just that where the ceiling
/// is an exact one.
pub fn costs_keep_their_ceilings()
    ensures opcodes { CostsKeepCeilings }
    ensures raise { RaiseKeepsCeiling }
{}

/// Every cost is below 2^61, whatever the pairs and entries of the code are.
pub fn costs_are_small()
    ensures opcodes { CostsAreSmall }
    ensures raise { RaiseIsSmall }
{}
