//! What is paid for loads, and what stands before and behind a method.
ghost use Rattle.std.specs.Prelude.{◌≡◌, ◌≤◌, ◌<◌, ◌*◌, ◌^◌, sum_by};
ghost use Rattle.method_flow.specs.Costs.{params};
ghost use Rattle.micro_flow.specs.Costs.{IsGreatestInvoke};
ghost use Rattle.bound_report.specs.Report.{products, loads_in};

use super::counts::{MethodCounts, NodeCount};
use super::rows::{product, sum};
use method_flow::Timing;
use micro_flow::{CostParams, greatest_invoke_cost};

/// What is paid at the entries of loops.
fn entry_loads(entered: &[u128], fees: &[u64]) -> u128
    ensures { products entered.now fees.now < 2 ^ 128 → result ≡ products entered.now fees.now }
{
    let mut cycles = 0;
    for i in 0..entered.len().min(fees.len()) {
        cycles = sum(cycles, product(entered[i], fees[i] as u128));
    }
    cycles
}

/// What is paid for loads at nodes.
fn call_loads(nodes: &[NodeCount]) -> u128
    ensures { sum_by (λ c. c.visits * c.loads) nodes.now < 2 ^ 128 → result ≡ sum_by (λ c. c.visits * c.loads) nodes.now }
{
    let mut cycles = 0;
    for c in nodes {
        cycles = sum(cycles, product(c.visits, c.loads));
    }
    cycles
}

/// What a method pays for loads, as often as its number counts.
fn loads_in(k: &MethodCounts) -> u128
    ensures { loads_in k.now < 2 ^ 128 → result ≡ loads_in k.now }
{
    let once = sum(entry_loads(&k.entered, &k.fees), call_loads(&k.nodes));
    product(k.times, once)
}

/// What these methods pay for loads.
pub fn loads_of(ks: &[MethodCounts]) -> u128
    ensures { sum_by loads_in ks.now < 2 ^ 128 → result ≡ sum_by loads_in ks.now }
{
    let mut cycles = 0;
    for k in ks {
        cycles = sum(cycles, loads_in(k));
    }
    cycles
}

/// The cycles that the dearest of the four invokes takes at most, where its look-ups hit.
pub fn greatest_invoke(t: Timing) -> u64
    requires read { t.read ≤ 63 }
    requires write { t.write ≤ 63 }
    ensures { IsGreatestInvoke (params t 0 0) result }
{
    greatest_invoke_cost(CostParams {
        r: t.read,
        w: t.write,
        pairs: 0,
        entries: 0,
    })
}
