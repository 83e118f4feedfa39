//! What is found of one method.
ghost use Rattle.std.specs.Prelude.{◌≡◌, ◌<◌, ◌≤◌, ◌^◌, ℕ, Some, length, slice_get, All, IfOk, IfErr};
ghost use Rattle.method_flow.specs.Flow.{Coded, IsCoded};
ghost use Rattle.compact_walks.specs.Limited.{cycles_limit, ArePicked, AreSmallAt};
ghost use Rattle.compact_walks.specs.Solving.{IsShownWalk};
ghost use Rattle.bound_finder.specs.declared.found.Walked.TheVariants.{Never, Shown, Large};
ghost use Rattle.bound_finder.specs.Known.{bounds_in, ForEach, CalleesAreKnown, IsLimited, IsBoundSetting};
ghost use Rattle.bound_finder.specs.Prepared.{IsInShape, IsNotPrepared};
ghost use Rattle.bound_finder.specs.Found.{IsFoundOf, IsSmallWalked, IsWalked, found_by, kind_of, known_by, problem_of};

use super::fit::{Fit, fit_of};
use super::found_laws::known_is;
use super::known::Known;
use super::prepared::{Prepared, prepare};
use super::show_laws::{found_in_text, found_shows};
use super::task::Task;
use base::NoMemory;
use bound_rules::BoundRefusal;
use certificates::{CertSection, SectionKind};
use compact_walks::{Answer, limited_sum, moved, picked, solve};
use path_solver::solved::Solved;
use section_check::section::Section;
use std::alloc::Global;

/// What is known of a method, and its section where none of its numbers is too large.
#[derive(Drop)]
pub struct Found {
    pub known: Known,
    pub section: Option<CertSection>,
}

/// What the walks of a method cost.
#[derive(Drop)]
pub enum Walked {
    /// None ends.
    Never,
    /// The greatest so much, by this section under the numbers of nodes.
    Shown(u64, Section),
    /// The greatest so much, where a walk past 64 bits counts as 2^64, and one of the numbers is too large.
    Large(u128),
}

/// A solution under the numbers of nodes.
fn shown(alloc: Global, p: &Prepared, solved: &Solved) -> Result<Walked, NoMemory>
    requires shape { IsInShape p.now }
    requires small { AreSmallAt p.now.shape.nodes p.now.costs.items }
    requires shown { IsShownWalk (problem_of p.now) solved.now }
    ensures { IfOk result (IsWalked p.now) }
{
    let section = moved(alloc, p.shape.nodes.as_slice(), solved.section())?;
    Ok(Walked::Shown(solved.value(), section))
}

/// What the walks cost, where each node costs less than 2^64.
fn walked_with(alloc: Global, p: &Prepared, costs: &[u64]) -> Result<Walked, NoMemory>
    requires shape { IsInShape p.now }
    requires picked { ArePicked p.now.shape.nodes p.now.costs.items costs.now }
    ensures { IfOk result (IsWalked p.now) }
{
    match solve(
        alloc,
        &p.shape.graph,
        &p.shape.nest,
        costs,
        &p.bounds,
        &p.charges.loads,
        &p.charges.flags,
    )? {
        Answer::Never => Ok(Walked::Never),
        Answer::Shown(solved) => shown(alloc, p, &solved),
        Answer::Exceeds(Some(value)) => Ok(Walked::Large(value as u128)),
        Answer::Exceeds(None) => Ok(Walked::Large(1 << 64)),
    }
}

/// What the walks of a method cost.
fn walk(alloc: Global, p: &Prepared) -> Result<Walked, NoMemory>
    requires { IsInShape p.now }
    ensures walked { IfOk result (IsWalked p.now) }
    ensures small { IfOk result IsSmallWalked }
{
    match picked(alloc, &p.costs, p.shape.nodes.as_slice())? {
        Some(costs) => walked_with(alloc, p, &costs),
        None => Ok(Walked::Large(1 << 64)),
    }
}

/// What is found of a method that can't end.
fn never(alloc: Global, m: u32, fit: Fit) -> Found
    ensures { result ≡ found_by m fit Never }
{
    Found {
        known: Known {
            fits: fit.fits,
            asked: None,
            full: None,
            too_large: false,
        },
        section: Some(CertSection {
            kind: kind_of(fit.fits),
            method: m,
            section: Section::new(Vec::new(alloc), Vec::new(alloc)),
        }),
    }
}

/// What is known of a method whose greatest walk costs so much, where numbers past 64 bits count as 2^64.
fn known_by(fit: Fit, value: u128, too_large: bool) -> Known
    requires value { value ≤ cycles_limit }
    requires more { fit.more ≤ cycles_limit }
    ensures { result ≡ known_by fit value too_large }
{
    let full = limited_sum(value, fit.more as u128);
    Known {
        fits: fit.fits,
        asked: Some(value),
        full: Some(full),
        too_large: too_large || full > u64::MAX as u128,
    }
}

/// What is found of a method whose greatest walk costs so much, by this section.
fn numbered(m: u32, fit: Fit, value: u64, section: Section) -> Found
    requires { fit.more ≤ cycles_limit }
    ensures { result ≡ found_by m fit (Shown value section) }
{
    let known = known_by(fit, value as u128, false);
    if known.too_large {
        return Found {
            known,
            section: None,
        };
    }
    Found {
        known,
        section: Some(CertSection {
            kind: kind_of(fit.fits),
            method: m,
            section,
        }),
    }
}

/// What is found of a method one of whose numbers is too large.
fn large(fit: Fit, value: u128) -> Found
    requires value { value ≤ cycles_limit }
    requires more { fit.more ≤ cycles_limit }
    ensures { (m : ℕ) → result ≡ found_by m fit (Large value) }
{
    Found {
        known: known_by(fit, value, true),
        section: None,
    }
}

/// The kind of the section of a method.
fn kind_of(fits: bool) -> SectionKind
    ensures { result ≡ kind_of fits }
{
    if fits {
        SectionKind::Inside
    } else {
        SectionKind::Loops
    }
}

/// What is found of the method `m`, by what its walks cost.
fn found_by(alloc: Global, m: u32, fit: Fit, walked: Walked) -> Found
    requires value { IsSmallWalked walked }
    requires more { fit.more ≤ cycles_limit }
    ensures { result ≡ found_by m fit walked }
{
    match walked {
        Walked::Never => never(alloc, m, fit),
        Walked::Shown(value, section) => numbered(m, fit, value, section),
        Walked::Large(value) => large(fit, value),
    }
}

/// Says of what form the waits are and the method `m` is.
fn form_of(task: &Task<'_>, m: u32)
    requires { m < length task.now.flow.methods }
    ensures setting { IsBoundSetting task.now }
    ensures coded { (k : Coded) × (slice_get task.now.flow.methods m ≡ Some k) × IsCoded k }
{
    // Its clause is for the proof alone.
    let _timing = task.timing();
    let _code = task.method(m).code();
}

/// Says that a method's nodes have numbers of 32 bits.
fn size_of(p: &Prepared)
    ensures { p.now.shape.size < 2 ^ 32 }
{
    // The contract alone speaks of it.
    let _size = p.shape.size;
}

/// What is found of the method `m`, where this is known of all that it may call.
pub fn examine(
    alloc: Global,
    task: &Task<'_>,
    m: u32,
    table: &[Known],
) -> Result<Found, BoundRefusal>
    requires method { m < length task.now.flow.methods }
    requires long { length table.now ≡ length task.now.flow.methods }
    requires limited { All IsLimited table.now }
    ensures found { IfOk result (IsFoundOf task.now table.now m) }
    ensures cause { IfErr result (λ e. ForEach task.now (λ P. CalleesAreKnown P task.now.timing table.now m → IsNotPrepared P (bounds_in task.now) m e)) }
{
    // The laws are for the proof.
    known_is();
    found_shows();
    found_in_text();
    form_of(task, m);
    let Ok(fit) = fit_of(alloc, task, m) else {
        return Err(BoundRefusal::NoMemory);
    };
    let p = prepare(alloc, task, m, fit.fits, table)?;
    size_of(&p);
    match walk(alloc, &p) {
        Ok(walked) => Ok(found_by(alloc, m, fit, walked)),
        Err(NoMemory) => Err(BoundRefusal::NoMemory),
    }
}
