//! Whether a section is in the form that its check takes.
ghost use Rattle.std.specs.Prelude.{◌↔◌, IsTrue};
ghost use Rattle.std.specs.List.Sorted.{IsStrictlyIncreasing};
ghost use Rattle.section_check.specs.Section.{listed, IsPotential, ArePotentials, HeadersRise, MembersRise, IsInForm};

use super::section::{CertLoop, Section};
use loop_nest::digraph::are_rising;

/// Whether each listed node is below the next.
fn nodes_rise(nodes: &[(u32, i128)]) -> bool
    ensures { IsTrue result ↔ IsStrictlyIncreasing (listed nodes.now) }
{
    for i in 1..nodes.len() {
        if nodes[i - 1].0 >= nodes[i].0 {
            return false;
        }
    }
    true
}

/// Whether a number has 64 bits beside its sign.
fn is_potential(p: i128) -> bool
    ensures { IsTrue result ↔ IsPotential p }
{
    let most = i128::from(u64::MAX);
    -most <= p && p <= most
}

/// Whether all potentials have 64 bits beside their signs.
fn are_potentials(nodes: &[(u32, i128)]) -> bool
    ensures { IsTrue result ↔ ArePotentials nodes.now }
{
    for i in 0..nodes.len() {
        if !is_potential(nodes[i].1) {
            return false;
        }
    }
    true
}

/// Whether the members of each loop rise.
fn members_rise(loops: &[CertLoop]) -> bool
    ensures { IsTrue result ↔ MembersRise loops.now }
{
    for i in 0..loops.len() {
        if !are_rising(loops[i].members()) {
            return false;
        }
    }
    true
}

/// Whether no header is below the one before it.
fn headers_rise(loops: &[CertLoop]) -> bool
    ensures { IsTrue result ↔ HeadersRise loops.now }
{
    for i in 1..loops.len() {
        if loops[i - 1].header() > loops[i].header() {
            return false;
        }
    }
    true
}

/// Whether `check_section` takes a section, with the bounds and the loads of its loops.
pub fn is_in_form(s: &Section, bounds: &[u32], loads: &[Option<u64>]) -> bool
    ensures { IsTrue result ↔ IsInForm s.now bounds.now loads.now }
{
    let loops = s.loops();
    if bounds.len() != loops.len() {
        return false;
    }
    if loads.len() != loops.len() {
        return false;
    }
    if !nodes_rise(s.nodes()) {
        return false;
    }
    if !are_potentials(s.nodes()) {
        return false;
    }
    if !members_rise(loops) {
        return false;
    }
    headers_rise(loops)
}
