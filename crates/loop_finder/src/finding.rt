//! The loops that count, of each method.

ghost use Rattle.std.specs.Prelude.{◌≡◌, ◌↔◌, ℕ, ◌<◌, List, [], length, All, IsTrue, IfOk, OnOk, slice_index};
ghost use Rattle.bytecode_model.specs.Program.{Program};
ghost use Rattle.loop_nest.specs.Digraph.{Digraph};
ghost use Rattle.loop_nest.specs.Nest.{IsNest, header_at};
ghost use Rattle.loop_nest.specs.Reduction.{IsReducible};
ghost use Rattle.method_flow.specs.Compact.{IsCompact};
ghost use Rattle.method_flow.specs.Graphs.{IsGraphOf};
ghost use Rattle.method_flow.specs.Flow.{IsCodedOf, IsFlowOf};
ghost use Rattle.compact_walks.specs.Moving.{IsMoved};
ghost use Rattle.loop_rules.specs.Finding.{AreCountedLoops};
ghost use Rattle.loop_rules.specs.Sites.{AreIntSites, constants_in};
ghost use Rattle.loop_rules.specs.Further.Arrays.{AreTables};
ghost use Rattle.loop_rules.specs.Further.Known.{Known};
ghost use Rattle.loop_finder.specs.Beginning.{AddsBeginnings, AreBeginnings, IsBodyOf, IsSteppedAt};
ghost use Rattle.loop_acts.specs.Writing.{IsIdle};
ghost use Rattle.loop_finder.specs.Counting.{AreBounds};
ghost use Rattle.loop_finder.specs.Further.{AreCountedFurther};
ghost use Rattle.loop_finder.specs.Headers.{AreHeadersOf, AreMethodHeaders, ArePlacesOf, LeadsUp};
ghost use Rattle.loop_acts.specs.Acts.{AreActs};
ghost use Rattle.loop_acts.specs.Reading.{AreIntsBy};
ghost use Rattle.loop_acts.specs.Rules.{Given, further, rules_by};
ghost use Rattle.loop_finder.specs.Skipping.{AreBacksPast, AreIdleFlags};
ghost use Rattle.loop_finder.specs.Methods.{AreBoundsBy, AreMethodBounds, IsAppended, IsBoundOfLoop, IsNestBy, with_bound};

use crate::beginning::add_of_loop;
use crate::body::{Beginning, Beginnings, MethodBody};
use crate::counting::bound_of;
use crate::headers::{LoopHeaders, header_places};
use base::NoMemory;
use compact_walks::numbers;
use flow_graph::{compact, whole_graph};
use loop_acts::{Act, MethodInts, acts, is_idle};
use loop_marks::{Routes, marks_of};
use loop_nest::loops::{Nest, NestFault};
use loop_nest::{Graph, nest};
use loop_rules::further::KnownTable;
use loop_rules::{FoundLoop, IntSites};
use method_flow::{FlowMethod, FlowProgram};
use std::alloc::Global;

/// Whether none of these members is an instruction that writes a local variable, where `nodes` gives the numbers of the nodes in the whole
/// graph.
fn are_idle(acts: &[Act], nodes: &[u32], members: &[u32]) -> bool
    requires { All (λ u. u < length nodes.now) members.now }
    ensures { IsTrue result → All (λ u. IsIdle acts.now (slice_index nodes.now u)) members.now }
{
    for u in members {
        if !is_idle(acts, nodes[*u as usize]) {
            return false;
        }
    }
    true
}

/// The place of the header of a loop of a nest and the loop's least number, if it counts.
fn bound_of_loop(
    alloc: Global,
    body: &MethodBody,
    nest: &Nest,
    nodes: &[u32],
    index: usize,
) -> Result<Option<(u32, u32)>, NoMemory>
    requires index { index < length nest.now }
    requires nest { IsNestBy body.now.graph nodes.now nest.now }
    ensures { IfOk result (λ bound. (d : Digraph) → IsMoved body.now.graph d (slice_index nodes.now) → IsNest d nest.now
        → IsBoundOfLoop body.now (slice_index nodes.now) nest.now index bound) }
{
    // Its clause is for the proof alone.
    let _ = body.routes.nodes();
    let l = &nest.loops()[index];
    // A loop that writes nothing has no step, and its tests need no search.
    if are_idle(&body.acts, nodes, l.members()) {
        return Ok(None);
    }
    bound_of_marked_loop(alloc, body, nest, nodes, index)
}

/// The same, by the marks of the loop.
fn bound_of_marked_loop(
    alloc: Global,
    body: &MethodBody,
    nest: &Nest,
    nodes: &[u32],
    index: usize,
) -> Result<Option<(u32, u32)>, NoMemory>
    requires index { index < length nest.now }
    requires nest { IsNestBy body.now.graph nodes.now nest.now }
    ensures { IfOk result (λ bound. (d : Digraph) → IsMoved body.now.graph d (slice_index nodes.now) → IsNest d nest.now
        → IsBoundOfLoop body.now (slice_index nodes.now) nest.now index bound) }
{
    // Its clause is for the proof alone.
    let _ = body.routes.nodes();
    let marks = marks_of(alloc, nest, nodes, index)?;
    if marks.header() % 2 == 1 {
        return Ok(None);
    }
    let place = marks.header() / 2;
    match bound_of(alloc, body, &marks)? {
        Some(bound) => Ok(Some((place, bound))),
        None => Ok(None),
    }
}

/// Puts a loop that counts behind others, if it does.
fn add_bound(bounds: &mut Vec<(u32, u32)>, bound: Option<(u32, u32)>) -> Result<(), NoMemory>
    ensures { OnOk result (bounds.new.items ≡ with_bound bounds.old.items bound) }
{
    if let Some(bound) = bound {
        bounds.push(bound)?;
    }
    Ok(())
}

/// The loops of a nest that count.
fn bounds_of_nest(
    alloc: Global,
    body: &MethodBody,
    nest: &Nest,
    nodes: &[u32],
) -> Result<Vec<(u32, u32)>, NoMemory>
    requires { IsNestBy body.now.graph nodes.now nest.now }
    ensures { IfOk result (λ bounds. (d : Digraph) → IsMoved body.now.graph d (slice_index nodes.now) → IsNest d nest.now → AreBounds body.now bounds.items) }
{
    let loops = nest.loops();
    let mut bounds = Vec::new(alloc);
    for index in 0..loops.len() {
        let bound = bound_of_loop(alloc, body, nest, nodes, index)?;
        add_bound(&mut bounds, bound)?;
    }
    Ok(bounds)
}

/// Adds with what local variables begin in a loop of a nest, if they have their only steps there.
fn add_of_index(
    alloc: Global,
    body: &MethodBody,
    nest: &Nest,
    nodes: &[u32],
    index: usize,
    found: &mut Vec<Beginning>,
) -> Result<(), NoMemory>
    requires index { index < length nest.now }
    requires nest { IsNestBy body.now.graph nodes.now nest.now }
    ensures { OnOk result ((P : Program) (known : Known) (m : ℕ) (d : Digraph) → IsBodyOf P known m body.now
        → IsMoved body.now.graph d (slice_index nodes.now) → IsNest d nest.now
        → AddsBeginnings P known m body.now.graph (slice_index nodes.now (header_at nest.now index))
        (λ k. (u : ℕ) × IsSteppedAt body.now (slice_index nodes.now (header_at nest.now index)) k u) found.old.items found.new.items) }
{
    // Its clause is for the proof alone.
    let _ = body.routes.nodes();
    let l = &nest.loops()[index];
    if are_idle(&body.acts, nodes, l.members()) {
        return Ok(());
    }
    let marks = marks_of(alloc, nest, nodes, index)?;
    add_of_loop(alloc, body, &marks, found)
}

/// With what local variables begin in the loops of a nest in which they have their only steps.
fn beginnings(
    alloc: Global,
    body: &MethodBody,
    nest: &Nest,
    nodes: &[u32],
) -> Result<Vec<Beginning>, NoMemory>
    requires { IsNestBy body.now.graph nodes.now nest.now }
    ensures { IfOk result (λ found. (P : Program) (known : Known) (m : ℕ) (d : Digraph) → IsBodyOf P known m body.now
        → IsMoved body.now.graph d (slice_index nodes.now) → IsNest d nest.now → AreBeginnings P known m body.now found.items) }
{
    let loops = nest.loops();
    let mut found = Vec::new(alloc);
    for index in 0..loops.len() {
        add_of_index(alloc, body, nest, nodes, index, &mut found)?;
    }
    Ok(found)
}

/// The loops that count, where it is known further with what local variables begin.
fn bounds_further(
    alloc: Global,
    body: MethodBody,
    nest: &Nest,
    nodes: &[u32],
) -> Result<Vec<(u32, u32)>, NoMemory>
    requires { IsNestBy body.graph nodes.now nest.now }
    ensures { IfOk result (λ bounds. (P : Program) (known : Known) (m : ℕ) (d : Digraph) → IsBodyOf P known m body
        → IsMoved body.graph d (slice_index nodes.now) → IsNest d nest.now → AreBoundsBy P (further P known) m body.graph bounds.items) }
{
    crate::laws::beginnings_are_one();
    let begins = Beginnings::Listed(beginnings(alloc, &body, nest, nodes)?);
    let body = MethodBody {
        acts: body.acts,
        routes: body.routes,
        backs: body.backs,
        begins,
    };
    bounds_of_nest(alloc, &body, nest, nodes)
}

/// For each of so many nodes whether it is no instruction that writes a local variable.
fn idle_flags(alloc: Global, acts: &[Act], nodes: u32) -> Result<Vec<bool>, NoMemory>
    ensures { IfOk result (λ flags. AreIdleFlags acts.now nodes flags.items) }
{
    let mut flags = Vec::with_capacity(alloc, nodes as usize)?;
    for node in 0..nodes {
        flags.push(is_idle(acts, node))?;
    }
    Ok(flags)
}

/// For each of so many nodes whether a search for last writes may skip past it.
fn skipped_flags(
    alloc: Global,
    ints: &MethodInts<'_>,
    acts: &[Act],
    nodes: u32,
) -> Result<Vec<bool>, NoMemory>
    ensures { IfOk result (λ flags. AreIdleFlags acts.now nodes flags.items) }
{
    match ints {
        // There are no such searches by the sites alone.
        MethodInts::OfSites(_) => Ok(vec![in alloc; false; nodes as usize]?),
        MethodInts::OfTable(_) => idle_flags(alloc, acts, nodes),
    }
}

/// For each node the one to which a search for last writes may skip back from it.
fn backs_past(
    alloc: Global,
    ints: &MethodInts<'_>,
    acts: &[Act],
    routes: &Routes,
) -> Result<Vec<u32>, NoMemory>
    ensures { IfOk result (λ backs. AreBacksPast acts.now routes.now backs.items) }
{
    let idle = skipped_flags(alloc, ints, acts, routes.nodes())?;
    routes.backs(alloc, &idle)
}

/// What the instructions of a method do, and its graph.
fn plain_body(
    alloc: Global,
    method: &FlowMethod,
    ints: &MethodInts<'_>,
    graph: Graph,
) -> Result<MethodBody, NoMemory>
    ensures acts { IfOk result (λ b. (P : Program) (given : Given) (m : ℕ) → IsCodedOf P m method.now → AreIntsBy P m ints.now given
        → AreActs P (rules_by P given) m b.acts) }
    ensures graph { IfOk result (λ b. b.graph ≡ graph) }
    ensures begins { IfOk result (λ b. b.begins ≡ Beginnings.Stored) }
{
    let acts = acts(alloc, method, ints)?;
    let routes = Routes::new(alloc, graph)?;
    let backs = backs_past(alloc, ints, &acts, &routes)?;
    Ok(MethodBody {
        acts,
        routes,
        backs,
        begins: Beginnings::Stored,
    })
}

/// The loops that count of a method with a nest, by the places of their headers.
fn bounds_by(
    alloc: Global,
    method: &FlowMethod,
    ints: &MethodInts<'_>,
    graph: Graph,
    nest: &Nest,
    nodes: &[u32],
) -> Result<Vec<(u32, u32)>, NoMemory>
    requires { IsNestBy graph nodes.now nest.now }
    ensures { IfOk result (λ bounds. (P : Program) (given : Given) (m : ℕ) (d : Digraph) → IsCodedOf P m method.now → AreIntsBy P m ints.now given
        → IsGraphOf P m graph → IsMoved graph d (slice_index nodes.now) → IsNest d nest.now → AreBoundsBy P (rules_by P given) m graph bounds.items) }
{
    code_lines::laws::lines_follow_one_another();
    code_lines::laws::one_stands_before();
    opcodes::laws::starts_follow_one_another();
    method_flow::laws::rows_are_of_their_kinds();
    // Its clause is for the proof alone.
    let _ = method.code();
    let body = plain_body(alloc, method, ints, graph)?;
    match ints {
        MethodInts::OfSites(_) => bounds_of_nest(alloc, &body, nest, nodes),
        MethodInts::OfTable(_) => bounds_further(alloc, body, nest, nodes),
    }
}

/// The loops of a method: where they are headed, and those that count, by the places of their headers.
#[derive(Drop)]
struct FoundLoops {
    headers: LoopHeaders,
    bounds: Vec<(u32, u32)>,
}

/// The loops of a method whose graph is reducible.
fn nested_loops(
    alloc: Global,
    method: &FlowMethod,
    ints: &MethodInts<'_>,
    graph: Graph,
    nest: &Nest,
    nodes: &[u32],
) -> Result<FoundLoops, NoMemory>
    requires nest { IsNestBy graph nodes.now nest.now }
    requires headers { All (λ l. l.header < length nodes.now) nest.now }
    ensures headers { IfOk result (λ x. ArePlacesOf nest.now nodes.now x.headers) }
    ensures bounds { IfOk result (λ x. (P : Program) (given : Given) (m : ℕ) (d : Digraph) → IsCodedOf P m method.now → AreIntsBy P m ints.now given
        → IsGraphOf P m graph → IsCompact graph d (slice_index nodes.now) → IsReducible d → IsNest d nest.now
        → AreMethodBounds P (rules_by P given) m x.bounds.items) }
{
    code_lines::laws::lines_follow_one_another();
    compact_walks::laws::graphs_are_moved();
    compact_walks::laws::moved_is_nest();
    bound_rules::laws::graphs_are_one();
    let loops = nest.loops();
    let headers = LoopHeaders::Reducible(header_places(alloc, loops, nodes)?);
    // Without loops there is no need to read the code.
    if loops.is_empty() {
        return Ok(FoundLoops {
            headers,
            bounds: Vec::new(alloc),
        });
    }
    let bounds = bounds_by(alloc, method, ints, graph, nest, nodes)?;
    Ok(FoundLoops { headers, bounds })
}

/// The loops of a method with this graph.
fn loops_of_graph(
    alloc: Global,
    method: &FlowMethod,
    ints: &MethodInts<'_>,
    graph: Graph,
) -> Result<FoundLoops, NoMemory>
    ensures headers { IfOk result (λ x. (P : Program) (m : ℕ) → IsGraphOf P m graph → AreHeadersOf P m x.headers) }
    ensures bounds { IfOk result (λ x. (P : Program) (given : Given) (m : ℕ) → IsGraphOf P m graph → IsCodedOf P m method.now
        → AreIntsBy P m ints.now given → AreMethodBounds P (rules_by P given) m x.bounds.items) }
{
    loop_nest::laws::parts_are_reducible();
    loop_nest::laws::reduction_has_one_end();
    compact_walks::laws::graphs_are_moved();
    bound_rules::laws::graphs_are_one();
    let compact = compact(alloc, &graph)?;
    let nodes = compact.nodes.as_slice();
    match nest(alloc, &compact.graph) {
        Ok(nest) => nested_loops(alloc, method, ints, graph, &nest, nodes),
        Err(NestFault::Irreducible(left)) => Ok(FoundLoops {
            headers: LoopHeaders::Irreducible(numbers(alloc, nodes, &left)?),
            bounds: Vec::new(alloc),
        }),
        Err(NestFault::NoMemory) => Err(NoMemory),
    }
}

/// Whether each edge of a graph leads to a node of a greater number. Such a graph has no loops.
fn leads_up(graph: &Graph) -> bool
    ensures { IsTrue result ↔ LeadsUp graph.now }
{
    graph.edges().iter().all(|edge| edge.0 < edge.1)
}

/// The loops of a method that has none.
fn no_loops(alloc: Global) -> FoundLoops
    ensures headers { (numbers : List ℕ) → ArePlacesOf [] numbers result.headers }
    ensures bounds { result.bounds.items ≡ [] }
{
    FoundLoops {
        headers: LoopHeaders::Reducible(Vec::new(alloc)),
        bounds: Vec::new(alloc),
    }
}

/// The loops of a method.
fn loops_of_method(
    alloc: Global,
    method: &FlowMethod,
    ints: &MethodInts<'_>,
) -> Result<FoundLoops, NoMemory>
    ensures headers { IfOk result (λ x. (P : Program) (m : ℕ) → IsCodedOf P m method.now → AreHeadersOf P m x.headers) }
    ensures bounds { IfOk result (λ x. (P : Program) (given : Given) (m : ℕ) → IsCodedOf P m method.now → AreIntsBy P m ints.now given
        → AreMethodBounds P (rules_by P given) m x.bounds.items) }
{
    compact_walks::laws::graphs_are_moved();
    compact_walks::laws::moved_is_nest();
    bound_rules::laws::graphs_are_one();
    let graph = whole_graph(alloc, method)?;
    if leads_up(&graph) {
        return Ok(no_loops(alloc));
    }
    loops_of_graph(alloc, method, ints, graph)
}

/// Adds the loops of a method.
fn add_loops(method: u32, bounds: &[(u32, u32)], found: &mut Vec<FoundLoop>) -> Result<(), NoMemory>
    ensures { OnOk result (IsAppended method bounds.now found.old.items found.new.items) }
{
    for bound in bounds {
        found.push(FoundLoop {
            method,
            place: bound.0,
            bound: bound.1,
        })?;
    }
    Ok(())
}

/// The loops of a program: where they are headed, by method, and those that count.
#[derive(Drop)]
pub struct ProgramLoops {
    pub headers: Vec<LoopHeaders>,
    pub counted: Vec<FoundLoop>,
}

/// The loops of the program: of each method with code, by number, where they are headed; and those that count, methods and places
/// rising, each with the least number of times that it goes round at most. An irreducible method has none that count.
pub fn find_all(alloc: Global, f: &FlowProgram, s: &IntSites) -> Result<ProgramLoops, NoMemory>
    ensures headers { IfOk result (λ x. (P : Program) → IsFlowOf P f.now → AreIntSites P s.now → AreMethodHeaders P (length f.now.methods) x.headers.items) }
    ensures counted { IfOk result (λ x. (P : Program) → IsFlowOf P f.now → AreIntSites P s.now → AreCountedLoops P (constants_in s.now) x.counted.items) }
{
    let mut headers = Vec::new(alloc);
    let mut counted = Vec::new(alloc);
    for number in 0..f.method_count() {
        if number as usize >= s.method_count() {
            return Ok(ProgramLoops { headers, counted });
        }
        let ints = MethodInts::OfSites(s.method(number));
        let found = loops_of_method(alloc, f.method(number), &ints)?;
        add_loops(number, &found.bounds, &mut counted)?;
        headers.push(found.headers)?;
    }
    Ok(ProgramLoops { headers, counted })
}

/// The loops of the program that count, methods and places rising, each with the least number of times that it goes round at most.
/// An irreducible method has none.
pub fn find(alloc: Global, f: &FlowProgram, s: &IntSites) -> Result<Vec<FoundLoop>, NoMemory>
    ensures { IfOk result (λ found. (P : Program) → IsFlowOf P f.now → AreIntSites P s.now → AreCountedLoops P (constants_in s.now) found.items) }
{
    let loops = find_all(alloc, f, s)?;
    Ok(loops.counted)
}

/// The loops of the program that count by what is known further, methods and places rising, each with the least number of times that it
/// goes round at most: with limits and beginnings that are known by one line or by several, by whichever edge a loop is entered. The
/// tables tell of each method, by number, which ints its lines push. An irreducible method has no such loops.
pub fn find_further(
    alloc: Global,
    f: &FlowProgram,
    tables: &[KnownTable],
) -> Result<Vec<FoundLoop>, NoMemory>
    ensures { IfOk result (λ found. (P : Program) (known : Known) → IsFlowOf P f.now → AreTables P known tables.now → AreCountedFurther P known found.items) }
{
    crate::laws::further_rules_are_right();
    let mut counted = Vec::new(alloc);
    for number in 0..f.method_count() {
        if number as usize >= tables.len() {
            return Ok(counted);
        }
        let table = &tables[number as usize];
        let ints = MethodInts::OfTable(&table.ints);
        let found = loops_of_method(alloc, f.method(number), &ints)?;
        add_loops(number, &found.bounds, &mut counted)?;
    }
    Ok(counted)
}
