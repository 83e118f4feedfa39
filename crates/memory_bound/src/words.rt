//! The words of objects that the nodes of a method may make.
ghost use Rattle.std.specs.Prelude.{◌≡◌, ◌+◌, ◌<◌, ◌*◌, ℕ, length, All, IfOk, IfSome, MatchOption};
ghost use Rattle.method_flow.specs.Calls.{IsStartOf};
ghost use Rattle.memory_bound.specs.Setting.{ForEach, bounds_in, lengths_in};
ghost use Rattle.memory_bound.specs.Found.{BeginInstructions, KnowHeaps};
ghost use Rattle.memory_bound.specs.Words.{AreNodeWords, IsGreatestHeap, IsNodeWords, IsPlaceWords, IsSiteWords, SomeExceeds, told_words};

use super::found::Found;
use super::task::Task;
use base::NoMemory;
use memory_rules::Makes;
use std::alloc::Global;

/// The words of an array of so many elements, each of which takes so many words.
fn array_words(element: u8, length: u32) -> u64
    ensures { result ≡ 2 + element * length }
{
    2 + u64::from(element) * u64::from(length)
}

/// The most words that an instruction makes at once that makes this, where this length is given for its arrays; 0 where there is
/// none.
fn told_words(makes: Makes, given: Option<u32>) -> u64
    ensures { result ≡ told_words makes given }
{
    match (makes, given) {
        (Makes::Object(words), _) => words,
        (
            Makes::Array {
                element,
                constant: Some(length),
            },
            _,
        ) => match u32::try_from(length) {
            Ok(length) => array_words(element, length),
            Err(_) => 0,
        },
        (
            Makes::Array {
                element,
                constant: None,
            },
            Some(length),
        ) => array_words(element, length),
        (Makes::Array { .. }, None) => 0,
    }
}

/// The most words that the instruction at a place of the method `m` makes itself at once.
fn site_words(task: &Task<'_>, m: u32, place: u32) -> u64
    requires { m < length task.now.flow.methods }
    ensures { ForEach task.now (λ P. IsSiteWords P (lengths_in task.now) m place result) }
{
    match task.made_at(m, place) {
        Some(makes) => told_words(makes, task.length_at(m, place)),
        None => 0,
    }
}

/// The greatest number of words that one of these methods may make, or `None` where one exceeds 64 bits.
fn greatest_heap(targets: &[u32], table: &[Found]) -> Option<u64>
    requires { All (λ t. t < length table.now) targets.now }
    ensures { IsGreatestHeap table.now targets.now result }
{
    let mut greatest = 0;
    for t in targets {
        greatest = table[*t as usize].heap?.max(greatest);
    }
    Some(greatest)
}

/// The most words that the instruction at a place of the method `m` makes, or the methods that it may run, or `None` where they
/// exceed 64 bits.
fn place_words(task: &Task<'_>, m: u32, table: &[Found], place: u32) -> Option<u64>
    requires method { m < length task.now.flow.methods }
    requires long { length table.now ≡ length task.now.flow.methods }
    ensures { ForEach task.now (λ P. IsStartOf P m place → KnowHeaps P (bounds_in task.now) (lengths_in task.now) table.now m
        → IsPlaceWords P (bounds_in task.now) (lengths_in task.now) m place result) }
{
    let called = greatest_heap(task.targets_at(m, place), table)?;
    Some(called.max(site_words(task, m, place)))
}

/// The same of a node of the method's graph. A raise step makes none.
fn node_words(task: &Task<'_>, m: u32, table: &[Found], node: u32) -> Option<u64>
    requires method { m < length task.now.flow.methods }
    requires long { length table.now ≡ length task.now.flow.methods }
    ensures { ForEach task.now (λ P. ((p : ℕ) → 2 * p ≡ node → IsStartOf P m p) → KnowHeaps P (bounds_in task.now) (lengths_in task.now) table.now m
        → IsNodeWords P (bounds_in task.now) (lengths_in task.now) m node result) }
{
    if node % 2 == 0 {
        place_words(task, m, table, node / 2)
    } else {
        Some(0)
    }
}

/// The same of each of these nodes, or `None` where one of them exceeds 64 bits.
pub fn words_of(
    alloc: Global,
    task: &Task<'_>,
    m: u32,
    table: &[Found],
    nodes: &[u32],
) -> Result<Option<Vec<u64>>, NoMemory>
    requires method { m < length task.now.flow.methods }
    requires long { length table.now ≡ length task.now.flow.methods }
    ensures long { IfOk result (λ o. IfSome o (λ v. length v.items ≡ length nodes.now)) }
    ensures words { IfOk result (λ o. ForEach task.now (λ P. BeginInstructions P m nodes.now
        → KnowHeaps P (bounds_in task.now) (lengths_in task.now) table.now m
        → MatchOption o (SomeExceeds P (bounds_in task.now) (lengths_in task.now) m nodes.now)
        (λ v. AreNodeWords P (bounds_in task.now) (lengths_in task.now) m nodes.now v.items))) }
{
    let mut words = Vec::with_capacity(alloc, nodes.len())?;
    for node in nodes {
        match node_words(task, m, table, *node) {
            Some(node_words) => words.push(node_words)?,
            None => return Ok(None),
        }
    }
    Ok(Some(words))
}
