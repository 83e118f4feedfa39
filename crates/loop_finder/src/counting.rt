//! How often a loop goes round at most, by its tests.

ghost use Rattle.std.specs.Prelude.{◌≡◌, ◌≢◌, ◌↔◌, ℕ, ◌*◌, ◌^◌, ◌<◌, false, List, [], pos, Contains, IsTrue, IfOk, IfSome, OnOk, MatchOption};
ghost use Rattle.loop_nest.specs.Digraph.{Digraph};
ghost use Rattle.section_check.specs.Least.{IsLeast};
ghost use Rattle.method_flow.specs.Nodes.{IsAtOffset};
ghost use Rattle.loop_rules.specs.Iterations.{IsOnEachIteration};
ghost use Rattle.loop_acts.specs.Acts.{act_at};
ghost use Rattle.loop_acts.specs.Writing.{AreWriters, IsOnly, IsOnlyOf, IsWriterAmong, IsWriterAt, is_other};
ghost use Rattle.loop_finder.specs.Counting.{AreBefore, BeginsIn, Counts, CountsByNode, CountsFor, IsAddedBy, IsChoiceAt, IsChoiceOf, IsFirstIf};
ghost use Rattle.loop_finder.specs.Counting.{IsFirstOutEither, IsLeastBeside, IsLeaving, IsLookedAt, IsSettled, IsStepFound};
ghost use Rattle.loop_marks.specs.Marking.{AreMarksOf, AreSized, IsRest, IsWithout, Marks};
ghost use Rattle.loop_finder.specs.Setting.{IsOnlyEntry};

use crate::body::{Beginnings, MethodBody, begin_in};
use crate::setting::{only_entry, set_before, writes_before};
use base::NoMemory;
use code_scan::Comparison;
use loop_acts::{Act, Test, act_at, first_out, only_writer, opposite, writers};
use loop_marks::{
    LoopMarks, NodeFlags, Routes, comes_back, is_flagged, is_on_each_iteration, reached_without,
};
use section_check::placing::lesser;
use std::alloc::Global;

/// How a loop may count: the places of a test and of the only step of the variable that it tests, what is added there, what the
/// variable begins with, and which values leave the loop.
#[derive(Clone, Copy)]
pub struct Choice {
    pub test: u32,
    pub step: u32,
    pub by: i32,
    pub begin: i32,
    pub out: Comparison,
    pub limit: i32,
}

/// What a loop writes: the nodes of its instructions that write local variables, and the places of those on the one way to it, the last
/// first.
#[derive(Drop)]
pub struct LoopWrites {
    writers: Vec<u32>,
    before: Vec<u32>,
}

/// What an act adds to the local variable, where that isn't 0.
fn added(act: Act, local: u32) -> Option<i32>
    ensures { IsAddedBy act local result }
{
    match act {
        Act::Step(stepped, by) => {
            if stepped == local && by != 0 {
                Some(by)
            } else {
                None
            }
        }
        _ => None,
    }
}

/// The place of the only step of the local variable, and what is added there.
pub fn only_step(body: &MethodBody, writers: &[u32], local: u32) -> Option<(u32, i32)>
    ensures step { (k : Marks) → AreMarksOf body.now.graph k → AreWriters body.now.acts k.nodes writers.now → IsStepFound body.now k.header local result }
    ensures fit { (nodes : List ℕ) → AreWriters body.now.acts nodes writers.now → IfSome result (λ x. Contains nodes (2 * x.0) × (x.1 ≢ pos 0)) }
{
    let place = only_writer(&body.acts, writers, local)?;
    let by = added(act_at(&body.acts, place), local)?;
    Some((place, by))
}

/// The place that a branch leads to, where it isn't negative.
fn target_of(place: u32, offset: i32) -> Option<u64>
    ensures target { MatchOption result ((q : ℕ) → ¬ IsAtOffset place offset q) (IsAtOffset place offset) }
    ensures small { IfSome result (λ q. q < 2 ^ 33) }
{
    let target = i64::from(place) + i64::from(offset);
    if target < 0 {
        None
    } else {
        Some(target as u64)
    }
}

/// When a value leaves the loop at a test.
fn leaving(marks: &LoopMarks, place: u32, test: Test) -> Option<Comparison>
    ensures { (g : Digraph) → AreMarksOf g marks.now → IsLeaving g marks.now.header place test result }
{
    let target = target_of(place, test.offset)?;
    let taken_stays = marks.has(2 * target);
    let next_stays = marks.has(2 * u64::from(test.next));
    if taken_stays == next_stays {
        None
    } else if next_stays {
        Some(test.taken)
    } else {
        Some(opposite(test.taken))
    }
}

/// With what the local variable begins in the loop.
fn begin_of(body: &MethodBody, marks: &LoopMarks, writes: &LoopWrites, local: u32) -> Option<i32>
    ensures { AreBefore body.now marks.now.header writes.now.before.items → IsOnly (BeginsIn body.now marks.now.header local) result }
{
    match &body.begins {
        Beginnings::Stored => set_before(&body.acts, &writes.before, local),
        Beginnings::Listed(begins) => begin_in(begins, marks.header(), local),
    }
}

/// How the loop may count by the test at a place.
fn choice_at(
    body: &MethodBody,
    marks: &LoopMarks,
    writes: &LoopWrites,
    place: u32,
    test: Test,
) -> Option<Choice>
    requires sized { AreSized body.now.graph marks.now }
    requires writers { AreWriters body.now.acts marks.now.nodes writes.now.writers.items }
    requires place { 2 * place < body.now.graph.nodes }
    requires test { act_at body.now.acts place ≡ Act.Test test }
    ensures choice { AreMarksOf body.now.graph marks.now → AreBefore body.now marks.now.header writes.now.before.items
        → IsChoiceAt body.now marks.now.header place result }
    ensures fit { IfSome result (λ k. (2 * k.test < body.now.graph.nodes) × (2 * k.step < body.now.graph.nodes) × (k.by ≢ pos 0)) }
{
    let out = leaving(marks, place, test)?;
    let (step, by) = only_step(body, &writes.writers, test.local)?;
    let begin = begin_of(body, marks, writes, test.local)?;
    Some(Choice {
        test: place,
        step,
        by,
        begin,
        out,
        limit: test.limit,
    })
}

/// The number of the first value that leaves the loop, where `first` is tested first, and so is said.
fn first_if(is_first: bool, first: i64, choice: Choice) -> Option<u32>
    requires { choice.by ≢ pos 0 }
    ensures { IsFirstIf is_first first choice result }
{
    if is_first {
        first_out(first, choice.by, choice.out, choice.limit)
    } else {
        None
    }
}

/// The node of the instruction at a place.
fn node_at(routes: &Routes, place: u32) -> u32
    requires { 2 * place < routes.now.nodes }
    ensures { result ≡ 2 * place }
{
    // The number of nodes fits 32 bits.
    let _ = routes.nodes();
    2 * place
}

/// The least number by a choice whose test and step are on each iteration.
fn least_on_iterations(
    choice: Choice,
    without_test: &NodeFlags,
    without_step: &NodeFlags,
) -> Option<u32>
    requires { choice.by ≢ pos 0 }
    ensures { (g : Digraph) (h : ℕ) → IsOnEachIteration g h (2 * choice.test) → IsOnEachIteration g h (2 * choice.step)
        → IsWithout g h (2 * choice.test) without_test.now.items → IsWithout g h (2 * choice.step) without_step.now.items
        → IsLeast (CountsFor g h choice) result }
{
    let begin = i64::from(choice.begin);
    let test_first = !is_flagged(without_test, 2 * u64::from(choice.step));
    let step_first = !is_flagged(without_step, 2 * u64::from(choice.test));
    lesser(
        first_if(test_first, begin, choice),
        first_if(step_first, begin + i64::from(choice.by), choice),
    )
}

/// The least number by a choice, by the nodes that are reached without its test and without its step.
fn least_by(
    routes: &Routes,
    marks: &LoopMarks,
    choice: Choice,
    without_test: &NodeFlags,
    without_step: &NodeFlags,
) -> Option<u32>
    requires sized { AreSized routes.now marks.now }
    requires moves { choice.by ≢ pos 0 }
    requires test { 2 * choice.test < routes.now.nodes }
    requires step { 2 * choice.step < routes.now.nodes }
    ensures { AreMarksOf routes.now marks.now → IsWithout routes.now marks.now.header (2 * choice.test) without_test.now.items
        → IsWithout routes.now marks.now.header (2 * choice.step) without_step.now.items → IsLeast (CountsFor routes.now marks.now.header choice) result }
{
    if !is_on_each_iteration(routes, marks, node_at(routes, choice.test), without_test) {
        return None;
    }
    if !is_on_each_iteration(routes, marks, node_at(routes, choice.step), without_step) {
        return None;
    }
    least_on_iterations(choice, without_test, without_step)
}

/// The least number by a choice, wherever its test and its step stand.
fn soonest(choice: Choice) -> Option<u32>
    requires { choice.by ≢ pos 0 }
    ensures { IsLeast (IsFirstOutEither choice) result }
{
    let begin = i64::from(choice.begin);
    lesser(
        first_if(true, begin, choice),
        first_if(true, begin + i64::from(choice.by), choice),
    )
}

/// Whether a number is known that is not above this one, if there is this one.
fn is_settled(known: Option<u32>, soonest: Option<u32>) -> bool
    ensures { IsTrue result ↔ IsSettled known soonest }
{
    match (known, soonest) {
        (_, None) => true,
        (Some(m), Some(n)) => m <= n,
        (None, Some(_)) => false,
    }
}

/// What is known of a loop while its tests are looked at: the least number so far, and, once some node was found that isn't on each
/// iteration, the nodes of which alone the others may be.
#[derive(Drop)]
struct Known {
    least: Option<u32>,
    rest: Option<NodeFlags>,
}

/// Whether a node may be on each iteration, by what is known.
fn may_be(rest: &Option<NodeFlags>, node: u64) -> bool
    ensures { result ≡ false → (g : Digraph) (h : ℕ) → IfSome rest.now (λ flags. IsRest g h flags.items) → ¬ IsOnEachIteration g h node }
{
    match rest {
        Some(flags) => is_flagged(flags, node),
        None => true,
    }
}

/// Whether a lesser number may come by a choice.
fn may_count(known: &Known, choice: Choice) -> bool
    requires { choice.by ≢ pos 0 }
    ensures { result ≡ false → (g : Digraph) (h : ℕ) → IfSome known.now.rest (λ flags. IsRest g h flags.items)
        → IsLeastBeside known.now.least (CountsFor g h choice) known.now.least }
{
    if is_settled(known.least, soonest(choice)) {
        return false;
    }
    may_be(&known.rest, 2 * u64::from(choice.test))
        && may_be(&known.rest, 2 * u64::from(choice.step))
}

/// Looks for a number by a choice whose test may be on each iteration, by the nodes that are reached without the test.
fn look_at_step(
    alloc: Global,
    routes: &Routes,
    marks: &LoopMarks,
    choice: Choice,
    without_test: &NodeFlags,
    known: &mut Known,
) -> Result<(), NoMemory>
    requires sized { AreSized routes.now marks.now }
    requires moves { choice.by ≢ pos 0 }
    requires test { 2 * choice.test < routes.now.nodes }
    requires step { 2 * choice.step < routes.now.nodes }
    ensures { OnOk result (AreMarksOf routes.now marks.now → IsWithout routes.now marks.now.header (2 * choice.test) without_test.now.items
        → IsLookedAt routes.now marks.now.header (CountsFor routes.now marks.now.header choice) known.old known.new) }
{
    let without_step = reached_without(alloc, routes, marks, node_at(routes, choice.step))?;
    if comes_back(routes, marks, &without_step) {
        known.rest = Some(without_step);
        return Ok(());
    }
    known.least = lesser(
        known.least,
        least_by(routes, marks, choice, without_test, &without_step),
    );
    Ok(())
}

/// Looks for a number by a choice, by a search without its test and one without its step.
fn look_at_choice(
    alloc: Global,
    routes: &Routes,
    marks: &LoopMarks,
    choice: Choice,
    known: &mut Known,
) -> Result<(), NoMemory>
    requires sized { AreSized routes.now marks.now }
    requires moves { choice.by ≢ pos 0 }
    requires test { 2 * choice.test < routes.now.nodes }
    requires step { 2 * choice.step < routes.now.nodes }
    ensures { OnOk result (AreMarksOf routes.now marks.now
        → IsLookedAt routes.now marks.now.header (CountsFor routes.now marks.now.header choice) known.old known.new) }
{
    let without_test = reached_without(alloc, routes, marks, node_at(routes, choice.test))?;
    if comes_back(routes, marks, &without_test) {
        known.rest = Some(without_test);
        return Ok(());
    }
    look_at_step(alloc, routes, marks, choice, &without_test, known)
}

/// Looks for a number by a choice, where a lesser one may come by it.
fn look(
    alloc: Global,
    routes: &Routes,
    marks: &LoopMarks,
    choice: Choice,
    known: &mut Known,
) -> Result<(), NoMemory>
    requires sized { AreSized routes.now marks.now }
    requires moves { choice.by ≢ pos 0 }
    requires test { 2 * choice.test < routes.now.nodes }
    requires step { 2 * choice.step < routes.now.nodes }
    ensures { OnOk result (AreMarksOf routes.now marks.now
        → IsLookedAt routes.now marks.now.header (CountsFor routes.now marks.now.header choice) known.old known.new) }
{
    if !may_count(known, choice) {
        return Ok(());
    }
    look_at_choice(alloc, routes, marks, choice, known)
}

/// How the loop may count by the test at a place.
fn choice_if(
    body: &MethodBody,
    marks: &LoopMarks,
    writes: &LoopWrites,
    place: u32,
    test: Test,
) -> Option<Choice>
    requires sized { AreSized body.now.graph marks.now }
    requires writers { AreWriters body.now.acts marks.now.nodes writes.now.writers.items }
    requires place { 2 * place < body.now.graph.nodes }
    requires test { act_at body.now.acts place ≡ Act.Test test }
    ensures choice { AreMarksOf body.now.graph marks.now → AreBefore body.now marks.now.header writes.now.before.items
        → IsChoiceOf body.now marks.now.header (2 * place) result }
    ensures fit { IfSome result (λ k. (2 * k.test < body.now.graph.nodes) × (2 * k.step < body.now.graph.nodes) × (k.by ≢ pos 0)) }
{
    // The test is on each iteration of one loop at most.
    if marks.is_inner(2 * u64::from(place)) {
        return None;
    }
    choice_at(body, marks, writes, place, test)
}

/// How the loop may count by the test at a node, if there is one.
fn choice_of_node(
    body: &MethodBody,
    marks: &LoopMarks,
    writes: &LoopWrites,
    node: u32,
) -> Option<Choice>
    requires sized { AreSized body.now.graph marks.now }
    requires writers { AreWriters body.now.acts marks.now.nodes writes.now.writers.items }
    requires node { node < body.now.graph.nodes }
    ensures choice { AreMarksOf body.now.graph marks.now → AreBefore body.now marks.now.header writes.now.before.items
        → IsChoiceOf body.now marks.now.header node result }
    ensures fit { IfSome result (λ k. (2 * k.test < body.now.graph.nodes) × (2 * k.step < body.now.graph.nodes) × (k.by ≢ pos 0)) }
{
    if node % 2 == 1 {
        return None;
    }
    match act_at(&body.acts, node / 2) {
        Act::Test(test) => choice_if(body, marks, writes, node / 2, test),
        _ => None,
    }
}

/// Looks for a number by the test at a node.
fn look_at(
    alloc: Global,
    body: &MethodBody,
    marks: &LoopMarks,
    writes: &LoopWrites,
    node: u32,
    known: &mut Known,
) -> Result<(), NoMemory>
    requires sized { AreSized body.now.graph marks.now }
    requires writers { AreWriters body.now.acts marks.now.nodes writes.now.writers.items }
    requires node { node < body.now.graph.nodes }
    ensures { OnOk result (AreMarksOf body.now.graph marks.now → AreBefore body.now marks.now.header writes.now.before.items
        → IsLookedAt body.now.graph marks.now.header (CountsByNode body.now marks.now.header node) known.old known.new) }
{
    match choice_of_node(body, marks, writes, node) {
        Some(choice) => look(alloc, &body.routes, marks, choice, known),
        None => Ok(()),
    }
}

/// The least number by the test at a node, wherever it and its step stand.
fn soonest_of_node(
    body: &MethodBody,
    marks: &LoopMarks,
    writes: &LoopWrites,
    node: u32,
) -> Option<u32>
    requires sized { AreSized body.now.graph marks.now }
    requires writers { AreWriters body.now.acts marks.now.nodes writes.now.writers.items }
    requires node { node < body.now.graph.nodes }
{
    match choice_of_node(body, marks, writes, node) {
        Some(choice) => soonest(choice),
        None => None,
    }
}

/// The node by whose test the least number may come, if test and step are on each iteration.
fn soonest_node(body: &MethodBody, marks: &LoopMarks, writes: &LoopWrites) -> Option<u32>
    requires sized { AreSized body.now.graph marks.now }
    requires writers { AreWriters body.now.acts marks.now.nodes writes.now.writers.items }
    ensures { IfSome result (λ u. u < body.now.graph.nodes) }
{
    let mut found = None;
    let mut least = None;
    for node in marks.nodes() {
        let number = soonest_of_node(body, marks, writes, *node);
        if !is_settled(least, number) {
            least = number;
            found = Some(*node);
        }
    }
    found
}

/// What is known of a loop once the test was looked at by which the least number may come.
fn look_first(
    alloc: Global,
    body: &MethodBody,
    marks: &LoopMarks,
    writes: &LoopWrites,
) -> Result<Known, NoMemory>
    requires sized { AreSized body.now.graph marks.now }
    requires writers { AreWriters body.now.acts marks.now.nodes writes.now.writers.items }
    ensures { IfOk result (λ k. AreMarksOf body.now.graph marks.now → AreBefore body.now marks.now.header writes.now.before.items
        → IfSome k.least (Counts body.now marks.now.header) × IfSome k.rest (λ flags. IsRest body.now.graph marks.now.header flags.items)) }
{
    let mut known = Known {
        least: None,
        rest: None,
    };
    let Some(node) = soonest_node(body, marks, writes) else {
        return Ok(known);
    };
    look_at(alloc, body, marks, writes, node, &mut known)?;
    Ok(known)
}

/// The least number of a loop, by what it writes.
fn least_by_writes(
    alloc: Global,
    body: &MethodBody,
    marks: &LoopMarks,
    writes: &LoopWrites,
) -> Result<Option<u32>, NoMemory>
    requires sized { AreSized body.now.graph marks.now }
    requires writers { AreWriters body.now.acts marks.now.nodes writes.now.writers.items }
    ensures { IfOk result (λ n. AreMarksOf body.now.graph marks.now → AreBefore body.now marks.now.header writes.now.before.items
        → IsLeast (Counts body.now marks.now.header) n) }
{
    // Once the least number is known, hardly any other test needs a search.
    let mut known = look_first(alloc, body, marks, writes)?;
    for node in marks.nodes() {
        look_at(alloc, body, marks, writes, *node, &mut known)?;
    }
    Ok(known.least)
}

/// The least number of a loop that is entered from one node.
fn bound_from(
    alloc: Global,
    body: &MethodBody,
    marks: &LoopMarks,
    entry: u32,
) -> Result<Option<u32>, NoMemory>
    requires sized { AreSized body.now.graph marks.now }
    requires stored { body.now.begins ≡ Beginnings.Stored }
    requires entry { entry < body.now.graph.nodes }
    ensures { IfOk result (λ n. AreMarksOf body.now.graph marks.now → IsOnlyEntry body.now.graph marks.now.header entry
        → IsLeast (Counts body.now marks.now.header) n) }
{
    let writers = writers(alloc, &body.acts, marks.nodes())?;
    let before = writes_before(alloc, &body.acts, &body.routes, entry)?;
    least_by_writes(alloc, body, marks, &LoopWrites { writers, before })
}

/// The least number of a loop in which local variables begin with what is listed.
fn bound_listed(
    alloc: Global,
    body: &MethodBody,
    marks: &LoopMarks,
) -> Result<Option<u32>, NoMemory>
    requires sized { AreSized body.now.graph marks.now }
    requires listed { AreBefore body.now marks.now.header [] }
    ensures { IfOk result (λ n. AreMarksOf body.now.graph marks.now → IsLeast (Counts body.now marks.now.header) n) }
{
    let writers = writers(alloc, &body.acts, marks.nodes())?;
    let before = Vec::new(alloc);
    least_by_writes(alloc, body, marks, &LoopWrites { writers, before })
}

/// The least number of a loop in which local variables begin with what is stored on the one way to it.
fn bound_stored(
    alloc: Global,
    body: &MethodBody,
    marks: &LoopMarks,
) -> Result<Option<u32>, NoMemory>
    requires sized { AreSized body.now.graph marks.now }
    requires stored { body.now.begins ≡ Beginnings.Stored }
    ensures { IfOk result (λ n. AreMarksOf body.now.graph marks.now → IsLeast (Counts body.now marks.now.header) n) }
{
    match only_entry(&body.routes, marks) {
        Some(entry) => bound_from(alloc, body, marks, entry),
        None => Ok(None),
    }
}

/// The least number of a loop.
pub fn bound_of(
    alloc: Global,
    body: &MethodBody,
    marks: &LoopMarks,
) -> Result<Option<u32>, NoMemory>
    requires { AreSized body.now.graph marks.now }
    ensures { IfOk result (λ n. AreMarksOf body.now.graph marks.now → IsLeast (Counts body.now marks.now.header) n) }
{
    match &body.begins {
        Beginnings::Stored => bound_stored(alloc, body, marks),
        Beginnings::Listed(_) => bound_listed(alloc, body, marks),
    }
}
