//! Exception handlers (JVM Specification SE 8, 4.10.1.6).
ghost use Rattle.std.specs.Prelude.{◌≡◌, ◌≤◌, List, map, length, true, false, Some, nat_le};
ghost use Rattle.std.specs.List.{AllWithin};
ghost use Rattle.std.specs.List.Sorted.{IsNonDecreasingBy, IsPartitionPoint};
ghost use Rattle.bytecode_typing.specs.Walk as walk;
ghost use Rattle.program_tables.specs.Meanings.{handler_seen};
ghost use Rattle.program_tables.specs.Resolved.{resolved};
ghost use Rattle.verifier_types.specs.Frame.{frame_seen};
ghost use Rattle.verifier_types.specs.Locals.{lists_seen};
ghost use Rattle.bytecode_verifier.specs.Maps.{frames_at};
ghost use Rattle.bytecode_verifier.specs.Handled.{takes, WasAsked, IsHeld, HoldAlike};

use crate::maps::{MapFrames, frame_at};
use crate::objects::THROWABLE;
use crate::ranges::joined_ranges;
use program_tables::{Base, Handler, ObjectKind};
use verifier_types::{LocalLists, TypeFrame, VarType, is_assignable_kind};

/// An exception table in the order in which its ranges begin.
#[derive(Drop)]
pub struct Handlers {
    items: Vec<Handler>,
    ghost rising: { IsNonDecreasingBy (λ h. h.start) items.items },
}

/// The same handlers in that order, where those that ask the same of instructions that follow one another are one.
pub fn by_start(handlers: Vec<Handler>) -> Handlers
    ensures { HoldAlike (map handler_seen result.items.items) (map handler_seen handlers.items) }
{
    let mut handlers = joined_ranges(handlers);
    handlers.sort_unstable_by_key(|h| h.start);
    Handlers { items: handlers }
}

impl Handlers {
    /// Whether there are none.
    pub fn is_empty(&self) -> bool {
        self.items.is_empty()
    }
}

/// How many of them begin at the place or before it.
fn begun(handlers: &Handlers, place: u32) -> usize
    ensures bound { result ≤ length handlers.now.items.items }
    ensures point { IsPartitionPoint (λ h. nat_le h.start place ≡ true) (λ h. nat_le h.start place ≡ false) handlers.now.items.items result }
{
    handlers
        .items
        .partition_point(|h| u32::from(h.start) <= place)
}

/// How many of them need not be asked again at the place, since they begin no later than the one at which they were asked.
fn begun_before(handlers: &Handlers, asked: Option<u32>, place: u32) -> usize
    ensures bound { result ≤ length handlers.now.items.items }
    ensures earlier { AllWithin (λ h. WasAsked asked place h.start) handlers.now.items.items 0 result }
{
    match asked {
        Some(before) if before <= place => begun(handlers, before),
        _ => 0,
    }
}

/// Whether what the handler catches is a Throwable, and it takes the local variables with that alone on the stack.
fn is_handled(
    lists: &mut LocalLists<'_>,
    maps: &MapFrames,
    frame: &TypeFrame,
    handler: &Handler,
) -> bool
    ensures handled { let ls = lists_seen lists.old in result ≡ walk.is_handled (resolved lists.old.classes) (frames_at ls maps.now) (frame_seen ls frame.now)
        (handler_seen handler.now) }
    ensures kept { lists.new ≡ lists.old }
{
    let throwable = ObjectKind {
        dimensions: 0,
        base: Base::Class(THROWABLE),
    };
    let caught = match handler.caught {
        Some(kind) => {
            if !is_assignable_kind(lists.classes(), kind, throwable) {
                return false;
            }
            kind
        }
        None => throwable,
    };
    match frame_at(maps, u64::from(handler.target)) {
        Some(target) => frame.raises_to(lists, VarType::Reference(caught), target),
        None => false,
    }
}

/// Whether the handler takes the frame, if it covers the place.
fn takes(
    lists: &mut LocalLists<'_>,
    maps: &MapFrames,
    place: u32,
    frame: &TypeFrame,
    handler: &Handler,
) -> bool
    ensures taken { let ls = lists_seen lists.old in result ≡ takes (resolved lists.old.classes) (frames_at ls maps.now) place (frame_seen ls frame.now)
        (handler_seen handler.now) }
    ensures kept { lists.new ≡ lists.old }
{
    let covers = u32::from(handler.start) <= place && place < u32::from(handler.end);
    !covers || is_handled(lists, maps, frame, handler)
}

/// Whether each handler that covers the place takes the frame. Where those that cover an earlier place do, only those are asked that
/// begin behind it.
pub fn are_handled(
    lists: &mut LocalLists<'_>,
    maps: &MapFrames,
    asked: Option<u32>,
    place: u32,
    frame: &TypeFrame,
    handlers: &Handlers,
) -> bool
    ensures handled { let P = resolved lists.old.classes in let ls = lists_seen lists.old in IsHeld P (frames_at ls maps.now) asked
        (Some (frame_seen ls frame.now)) (map handler_seen handlers.now.items.items) → result ≡ walk.handlers_hold P (frames_at ls maps.now) place (frame_seen
        ls frame.now) (map handler_seen handlers.now.items.items) }
    ensures kept { lists.new ≡ lists.old }
{
    let first = begun_before(handlers, asked, place);
    let end = begun(handlers, place);
    for index in first..end {
        if !takes(lists, maps, place, frame, &handlers.items[index]) {
            return false;
        }
    }
    true
}
