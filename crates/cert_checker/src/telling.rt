//! What the invokes of a section are told of the methods that they may run.
ghost use Rattle.std.specs.Prelude.{◌≡◌, ◌*◌, ◌+◌, ◌<◌, length, IfOk, Some};
ghost use Rattle.certificates.specs.Certificate.{is_inside};
ghost use Rattle.bound_rules.specs.Told.{is_without_loads, within_limit, with_cycles};
ghost use Rattle.cert_checker.specs.Setting.{IsWithinBits, full_of};
ghost use Rattle.cert_checker.specs.Telling.{AreFlagged, AreRegions, IsTeller, called_by, told};

use super::task::{Fit, Task};
use super::values::{Values, is_inside};
use base::NoMemory;
use certificates::{CertLoop, CertSection};
use node_costs::load;
use std::alloc::Global;

/// The tables by which the invokes of a section are told: the own costs of the nodes of the section's method, by number, in cycles,
/// and of each node whether a region of the section has it.
#[derive(Drop)]
pub struct Teller<'a> {
    pub task: &'a Task<'a>,
    pub values: &'a Values,
    pub section: &'a CertSection,
    pub own: &'a [u64],
    pub regions: &'a [bool],
}

/// So many cycles more, where a number is said.
fn with_cycles(cycles: u64, said: Option<Option<u64>>) -> Option<Option<u128>>
    ensures said { result ≡ with_cycles cycles said }
    ensures small { IsWithinBits 65 result }
{
    match said {
        Some(Some(n)) => Some(Some(n as u128 + cycles as u128)),
        Some(None) => Some(None),
        None => None,
    }
}

/// What is said of a method with all its loads.
pub fn full(task: &Task<'_>, values: &Values, m: u32) -> Option<Option<u128>>
    requires known { m < length task.now.flow.methods }
    requires long { values.now.methods ≡ length task.now.flow.methods }
    ensures said { result ≡ full_of task.now values.now.valued m }
    ensures small { IsWithinBits 65 result }
{
    match task.fit(m) {
        Fit::Fits(loads) => with_cycles(loads, values.said(true, m)),
        Fit::Exceeds => {
            let load = load(task.method(m), task.timing().read);
            with_cycles(load, values.said(false, m))
        }
    }
}

/// So many cycles more, where a number of this many bits is said.
fn with_load(cycles: u64, said: Option<Option<u128>>) -> Option<Option<u128>>
    requires { IsWithinBits 65 said }
    ensures said { result ≡ with_cycles cycles said }
    ensures small { IsWithinBits 66 result }
{
    match said {
        Some(Some(n)) => Some(Some(n + cycles as u128)),
        Some(None) => Some(None),
        None => None,
    }
}

/// A number with which a call would cost more than a certificate can hold counts as absent.
fn within_limit(own: u64, said: Option<Option<u128>>) -> Option<Option<u64>>
    requires { IsWithinBits 66 said }
    ensures { result ≡ within_limit own said }
{
    match said {
        Some(Some(n)) => {
            if own as u128 + n <= u128::from(u64::MAX) {
                Some(Some(n as u64))
            } else {
                None
            }
        }
        Some(None) => Some(None),
        None => None,
    }
}

/// What is said of the method `x` where the section's method calls it.
fn called(t: &Teller<'_>, without_loads: bool, x: u32) -> Option<Option<u128>>
    requires teller { IsTeller t.now }
    requires known { x < length t.now.task.now.flow.methods }
    ensures said { result ≡ called_by t.now.task.now t.now.values.now.valued without_loads t.now.section.now.method x }
    ensures small { IsWithinBits 66 result }
{
    if without_loads {
        with_cycles(0, t.values.said(true, x))
    } else {
        let back = load(t.task.method(t.section.method), t.task.timing().read);
        with_load(back, full(t.task, t.values, x))
    }
}

/// Whether a call at the place costs nothing for loads.
pub fn is_without_loads(t: &Teller<'_>, place: u32) -> bool
    requires teller { IsTeller t.now }
    requires inside { 2 * place < length t.now.own.now }
    ensures { result ≡ is_without_loads t.now.section.now place }
{
    is_inside(t.section.kind) || t.regions[2 * place as usize]
}

/// What the invoke at the place is told of the method `x`, where a call there costs nothing for loads if so is said.
pub fn told(t: &Teller<'_>, place: u32, without_loads: bool, x: u32) -> Option<Option<u64>>
    requires teller { IsTeller t.now }
    requires inside { 2 * place < length t.now.own.now }
    requires known { x < length t.now.task.now.flow.methods }
    requires loads { without_loads ≡ is_without_loads t.now.section.now place }
    ensures { result ≡ told t.now place x }
{
    within_limit(t.own[2 * place as usize], called(t, without_loads, x))
}

/// Flags the members of a region.
fn flag(members: &[u32], flags: &mut [bool])
    ensures { AreFlagged members.now flags.old flags.new }
{
    for u in members {
        let u = *u as usize;
        if u < flags.len() {
            flags[u] = true;
        }
    }
}

/// For each of so many nodes whether a region of the section has it.
pub fn regions(alloc: Global, s: &CertSection, size: usize) -> Result<Vec<bool>, NoMemory>
    ensures { IfOk result (λ flags. AreRegions s.now size flags.items) }
{
    let mut flags = vec![in alloc; false; size]?;
    for l in s.section.loops() {
        if l.region() {
            flag(l.members(), &mut flags);
        }
    }
    Ok(flags)
}
