//! Numbers of which those past 64 bits count as one.
ghost use Rattle.std.specs.Prelude.{◌≡◌, ◌+◌, ◌≤◌, ◌<◌, length, All, IfOk, MatchBool, MatchOption};
ghost use Rattle.compact_walks.specs.Limited.{cycles_limit, limited, picked, AreSmallAt, ArePicked, SomeExceeds};

use base::NoMemory;
use std::alloc::Global;

/// From here on numbers are not told apart: 2^64.
const LIMIT: u128 = 1 << 64;

/// The sum of two numbers, where those past 64 bits count as one.
pub fn limited_sum(a: u128, b: u128) -> u128
    requires a { a ≤ cycles_limit }
    requires b { b ≤ cycles_limit }
    ensures sum { result ≡ limited (a + b) }
    ensures small { result ≤ cycles_limit }
{
    (a + b).min(LIMIT)
}

/// Whether the costs of these nodes are all within 64 bits.
fn are_small(costs: &[u128], nodes: &[u32]) -> bool
    requires { All (λ x. x < length costs.now) nodes.now }
    ensures { MatchBool result (AreSmallAt nodes.now costs.now) (SomeExceeds nodes.now costs.now) }
{
    for x in nodes {
        if costs[*x as usize] >= LIMIT {
            return false;
        }
    }
    true
}

/// The costs of these nodes, in their order, which are within 64 bits.
fn narrowed(alloc: Global, costs: &[u128], nodes: &[u32]) -> Result<Vec<u64>, NoMemory>
    requires within { All (λ x. x < length costs.now) nodes.now }
    requires small { AreSmallAt nodes.now costs.now }
    ensures { IfOk result (λ v. v.items ≡ picked nodes.now costs.now) }
{
    let mut narrowed = Vec::new(alloc);
    for x in nodes {
        narrowed.push(costs[*x as usize] as u64)?;
    }
    Ok(narrowed)
}

/// The costs of these nodes, in their order, where all are within 64 bits.
pub fn picked(alloc: Global, costs: &[u128], nodes: &[u32]) -> Result<Option<Vec<u64>>, NoMemory>
    requires { All (λ x. x < length costs.now) nodes.now }
    ensures { IfOk result (λ o. MatchOption o (SomeExceeds nodes.now costs.now) (λ v. ArePicked nodes.now costs.now v.items)) }
{
    if are_small(costs, nodes) {
        Ok(Some(narrowed(alloc, costs, nodes)?))
    } else {
        Ok(None)
    }
}
