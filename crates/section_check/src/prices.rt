//! What it costs to enter a loop of a section.
ghost use Rattle.std.specs.Prelude.{◌≡◌, ◌+◌, ◌*◌, ◌^◌, ◌<◌, pos, length, unwrap_or};
ghost use Rattle.std.specs.List.Sorted.{IsStrictlyIncreasing};
ghost use Rattle.section_check.specs.Section.{priced, entry_fee, start_value, listed, HeadersRise, ArePotentials};

use super::lookups::{find_header, find_potential};
use super::section::{CertLoop, Section};

/// What it costs to enter a loop of so many iterations, of `iteration_cost` cycles each, whose region has
/// these loads.
pub fn fee(iteration_cost: u64, bound: u32, load: Option<u64>) -> i128
    ensures value { result ≡ pos (bound * iteration_cost + unwrap_or load 0) }
    ensures small { bound * iteration_cost + unwrap_or load 0 < 2 ^ 97 }
{
    i128::from(bound) * i128::from(iteration_cost) + i128::from(load.unwrap_or(0))
}

/// What it costs to enter the loop that node `u` heads, if it heads one.
pub fn fee_at(loops: &[CertLoop], bounds: &[u32], loads: &[Option<u64>], u: u32) -> i128
    requires headers { HeadersRise loops.now }
    requires bounds { length bounds.now ≡ length loops.now }
    requires loads { length loads.now ≡ length loops.now }
    ensures value { result ≡ pos (entry_fee (priced loops.now bounds.now loads.now) u) }
    ensures small { entry_fee (priced loops.now bounds.now loads.now) u < 2 ^ 97 }
{
    match find_header(loops, u) {
        Some(i) => fee(loops[i].iteration_cost(), bounds[i], loads[i]),
        None => 0,
    }
}

/// The potential of node 0 with what the start costs, where node 0 is listed.
pub fn signed_value(s: &Section, bounds: &[u32], loads: &[Option<u64>]) -> Option<i128>
    requires nodes { IsStrictlyIncreasing (listed s.now.nodes) }
    requires potentials { ArePotentials s.now.nodes }
    requires headers { HeadersRise s.now.loops }
    requires bounds { length bounds.now ≡ length s.now.loops }
    requires loads { length loads.now ≡ length s.now.loops }
    ensures { result ≡ start_value s.now (priced s.now.loops bounds.now loads.now) }
{
    let p = find_potential(s.nodes(), 0)?;
    Some(p + fee_at(s.loops(), bounds, loads, 0))
}
