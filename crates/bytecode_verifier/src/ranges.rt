//! Entries of an exception table that ask the same of the same frames (JVM Specification SE 8, 4.7.3 and 4.10.1.6).
ghost use Rattle.std.specs.Prelude.{◌≡◌, map};
ghost use Rattle.std.specs.Bool.{OnTrue, OnFalse};
ghost use Rattle.program_tables.specs.Meanings.{handler_seen};
ghost use Rattle.bytecode_verifier.specs.Handled.{HoldAlike};
ghost use Rattle.bytecode_verifier.specs.Ranges.{HoldsAsBoth};

use program_tables::{Base, Handler};

/// The class of which it catches instances or arrays, if there is one.
fn caught_class(handler: &Handler) -> Option<u32> {
    match handler.caught?.base {
        Base::Class(class) => Some(class),
        Base::Numbers(_) => None,
    }
}

/// Widens the range of the last by that of the next, if both lead to the same handler and catch the same, and the next range begins
/// within the last one or at its end. Whether it did.
fn widen(last: &mut Handler, next: &Handler) -> bool
    ensures widened { OnTrue result (HoldsAsBoth last.old next.now last.new) }
    ensures kept { OnFalse result (last.new ≡ last.old) }
{
    let same = last.target == next.target && last.caught == next.caught;
    let joined = same && last.start <= next.start && next.start <= last.end;
    if joined {
        last.end = last.end.max(next.end);
    }
    joined
}

/// The same handlers, where those that lead to the same place, catch the same and follow one another without a gap are one.
pub fn joined_ranges(mut handlers: Vec<Handler>) -> Vec<Handler>
    ensures { HoldAlike (map handler_seen result.items) (map handler_seen handlers.items) }
{
    handlers.sort_unstable_by_key(|h| (h.target, caught_class(h), h.start));
    handlers.dedup_by(|next, last| widen(last, next));
    handlers
}
