//! What is found of all methods that may run while one does.
ghost use Rattle.std.specs.Prelude.{◌≡◌, ◌<◌, ℕ, None, Some, [], length, replicate, All, IfOk, IfErr, OnOk};
ghost use Rattle.method_cache.specs.Regions.Region.{AreDistinct};
ghost use Rattle.section_check.specs.Least.{lesser_of};
ghost use Rattle.bound_finder.specs.Known.{unknown, bounds_in, ForEach, IsLimited};
ghost use Rattle.bound_finder.specs.Methods.{AddsMethod, AddsNext, AreMethodsFound, IsUnready};
ghost use Rattle.bound_finder.specs.Ready.{AreReady, IsWantOfMemory};

use super::found::{Found, examine};
use super::known::{Known, UNKNOWN};
use super::laws::ready_has_shape;
use super::task::Task;
use base::NoMemory;
use bound_rules::BoundRefusal;
use certificates::CertSection;
use std::alloc::Global;

/// What is known of each method, the least of those of which a number is too large, and the sections of those before it.
#[derive(Drop)]
pub struct Methods {
    pub table: Vec<Known>,
    pub least: Option<u32>,
    pub sections: Vec<CertSection>,
}

/// The lesser of two methods, or the one that there is.
pub fn lesser(a: Option<u32>, b: u32) -> u32
    ensures { Some result ≡ lesser_of a (Some b) }
{
    match a {
        Some(a) => a.min(b),
        None => b,
    }
}

/// Adds what is found of the method `m`.
fn add(all: &mut Methods, m: u32, found: Found) -> Result<(), NoMemory>
    requires { m < length all.old.table.items }
    ensures { OnOk result (AddsMethod m found all.old all.new) }
{
    let Found { known, section } = found;
    all.table[m as usize] = known;
    match section {
        Some(section) => all.sections.push(section)?,
        None => all.least = Some(lesser(all.least, m)),
    }
    Ok(())
}

/// Nothing is found yet, of so many methods.
fn none(alloc: Global, count: u32) -> Result<Methods, NoMemory>
    ensures { IfOk result (λ a. (a.table.items ≡ replicate count unknown) × (a.least ≡ None) × (a.sections.items ≡ [])) }
{
    let table = vec![in alloc; UNKNOWN; count as usize]?;
    Ok(Methods {
        table,
        least: None,
        sections: Vec::new(alloc),
    })
}

/// Finds the method `m`, and adds it.
fn find(alloc: Global, task: &Task<'_>, all: &mut Methods, m: u32) -> Result<(), BoundRefusal>
    requires method { m < length task.now.flow.methods }
    requires table { length all.old.table.items ≡ length task.now.flow.methods }
    requires limited { All IsLimited all.old.table.items }
    ensures found { OnOk result (AddsNext task.now m all.old all.new) }
    ensures cause { IfErr result (IsUnready task.now all.old.table.items m) }
{
    match examine(alloc, task, m, &all.table) {
        Ok(found) => match add(all, m, found) {
            Ok(()) => Ok(()),
            Err(NoMemory) => Err(BoundRefusal::NoMemory),
        },
        Err(fault) => Err(fault),
    }
}

/// What is found of these methods, each of which stands behind all that it may call.
pub fn examine_all(alloc: Global, task: &Task<'_>, order: &[u32]) -> Result<Methods, BoundRefusal>
    requires known { All (λ m. m < length task.now.flow.methods) order.now }
    requires distinct { AreDistinct order.now }
    ensures found { IfOk result (AreMethodsFound task.now order.now) }
    ensures cause { IfErr result (λ e. ForEach task.now (λ P. AreReady P (bounds_in task.now) order.now → IsWantOfMemory e)) }
{
    ready_has_shape();
    bound_rules::laws::one_more_meets();
    let Ok(mut all) = none(alloc, task.flow().method_count()) else {
        return Err(BoundRefusal::NoMemory);
    };
    for m in order {
        find(alloc, task, &mut all, *m)?;
    }
    Ok(all)
}
