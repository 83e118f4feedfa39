//! The edges from raise steps to handlers (JVM Specification SE 8, 2.10 and 4.7.3). Ranges of one handler are looked at in the
//! order of their starts, so that what an earlier one has covered is passed over and each edge is made once.
ghost use Rattle.std.specs.Prelude.{◌≡◌, ℕ, ◌<◌, length, All, IfOk, OnOk};
ghost use Rattle.std.specs.List.Sorted.{IsStrictlyIncreasing};
ghost use Rattle.flow_graph.specs.Growing.{Grows};
ghost use Rattle.flow_graph.specs.Raising.{uncovered_from, IsEdgeWithin, IsHandlerEdge, IsCovered, AreSameRanges, IsFirstFrom};

use base::NoMemory;
use method_flow::HandlerRange;
use std::alloc::Global;

/// The first of the places that isn't below a place.
fn first_from(places: &[u32], from: u32) -> usize
    requires { IsStrictlyIncreasing places.now }
    ensures { IsFirstFrom places.now from result }
{
    match places.binary_search(&from) {
        Ok(found) => found,
        Err(next) => next,
    }
}

/// Adds an edge to the handler from each raise step at a place from `from` up to `to`.
fn add_within(
    places: &[u32],
    from: u32,
    to: u32,
    handler: u32,
    edges: &mut Vec<(u32, u32)>,
) -> Result<(), NoMemory>
    requires rising { IsStrictlyIncreasing places.now }
    requires short { All (λ p. p < 65536) places.now }
    requires handler { handler < 65536 }
    ensures { OnOk result (Grows edges.old.items edges.new.items (IsEdgeWithin places.now from to handler)) }
{
    let first = first_from(places, from);
    let last = first_from(places, to);
    for i in first..last {
        edges.push((2 * places[i] + 1, 2 * handler))?;
    }
    Ok(())
}

/// From where a range isn't covered yet, where another one is.
fn uncovered(covered: HandlerRange, range: HandlerRange) -> u32
    ensures { result ≡ uncovered_from covered range }
{
    if covered.handler == range.handler
        && covered.start <= range.start
        && range.start < covered.end
    {
        covered.end
    } else {
        range.start
    }
}

/// Adds the edges to a range's handler, where those of the range `covered` are there, and tells the range that is covered then.
fn add_range(
    places: &[u32],
    covered: HandlerRange,
    range: HandlerRange,
    edges: &mut Vec<(u32, u32)>,
) -> Result<HandlerRange, NoMemory>
    requires rising { IsStrictlyIncreasing places.now }
    requires short { All (λ p. p < 65536) places.now }
    requires handler { range.handler < 65536 }
    requires covered { IsCovered places.now covered edges.old.items }
    ensures edges { OnOk result (Grows edges.old.items edges.new.items (IsEdgeWithin places.now range.start range.end range.handler)) }
    ensures covered { IfOk result (λ r. IsCovered places.now r edges.new.items) }
{
    let from = uncovered(covered, range);
    add_within(places, from, range.end, range.handler, edges)?;
    Ok(HandlerRange {
        start: range.start,
        end: from.max(range.end),
        handler: range.handler,
    })
}

/// The ranges by handler and start.
fn by_handler(alloc: Global, ranges: &[HandlerRange]) -> Result<Vec<HandlerRange>, NoMemory>
    ensures { IfOk result (λ sorted. AreSameRanges ranges.now sorted.items) }
{
    let mut sorted = Vec::from_slice(alloc, ranges)?;
    sorted.sort_unstable_by_key(|range| (range.handler, range.start));
    Ok(sorted)
}

/// Adds the edges from the raise steps at these places to the handlers that cover them.
pub fn add_handlers(
    alloc: Global,
    places: &[u32],
    ranges: &[HandlerRange],
    edges: &mut Vec<(u32, u32)>,
) -> Result<(), NoMemory>
    requires rising { IsStrictlyIncreasing places.now }
    requires short { All (λ p. p < 65536) places.now }
    requires handlers { All (λ r. r.handler < 65536) ranges.now }
    ensures { OnOk result (Grows edges.old.items edges.new.items (IsHandlerEdge places.now ranges.now)) }
{
    let sorted = by_handler(alloc, ranges)?;
    let mut covered = HandlerRange {
        start: 0,
        end: 0,
        handler: 0,
    };
    for range in &sorted {
        covered = add_range(places, covered, *range, edges)?;
    }
    Ok(())
}
