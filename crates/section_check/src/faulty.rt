//! What is wrong with the loops of a section among themselves.
ghost use Rattle.std.specs.Prelude.{◌≡◌, ◌≢◌, ℕ, ◌<◌, ◌↔◌, length, true, IsTrue};
ghost use Rattle.std.specs.List.Sorted.{IsStrictlyIncreasing};
ghost use Rattle.section_check.specs.Section.{CertifiedLoop, HeadersRise, MembersRise};
ghost use Rattle.section_check.specs.Placing.{IsEntryAt, LiesIn, AreCrossed, SharesHeader, CrossesAnother, LiesInRegion, IsFaulty, HeadsFaulty};
ghost use Rattle.section_check.specs.Least.{IsLeast, Meet, IsSubset};

use super::lookups::has;
use super::section::CertLoop;

/// Whether all of the nodes `a` come before those of `b`.
fn comes_before(a: &[u32], b: &[u32]) -> bool
    requires a { IsStrictlyIncreasing a.now }
    requires b { IsStrictlyIncreasing b.now }
    ensures { IsTrue result → ¬ Meet a.now b.now }
{
    match (a.last(), b.first()) {
        (Some(last), Some(first)) => last < first,
        _ => true,
    }
}

/// Whether one of the nodes `a` is one of the nodes `b`.
fn meets(a: &[u32], b: &[u32]) -> bool
    requires a { IsStrictlyIncreasing a.now }
    requires b { IsStrictlyIncreasing b.now }
    ensures { IsTrue result ↔ Meet a.now b.now }
{
    if comes_before(a, b) || comes_before(b, a) {
        return false;
    }
    for u in a {
        if has(b, *u) {
            return true;
        }
    }
    false
}

/// Whether all of the nodes `a` are among the nodes `b`.
fn lies_in(a: &[u32], b: &[u32]) -> bool
    requires { IsStrictlyIncreasing b.now }
    ensures { IsTrue result ↔ IsSubset a.now b.now }
{
    for u in a {
        if !has(b, *u) {
            return false;
        }
    }
    true
}

/// Whether two loops have a common member, and neither lies in the other.
fn crosses(a: &CertLoop, b: &CertLoop) -> bool
    requires a { IsStrictlyIncreasing a.now.members }
    requires b { IsStrictlyIncreasing b.now.members }
    ensures { IsTrue result ↔ AreCrossed a.now b.now }
{
    let (inner, outer) = (a.members(), b.members());
    if !meets(inner, outer) {
        return false;
    }
    if lies_in(inner, outer) {
        return false;
    }
    !lies_in(outer, inner)
}

/// Whether another loop has the header of loop `i`. As headers don't fall, only those next to it need
/// to be looked at.
pub fn shares_header(loops: &[CertLoop], i: usize) -> bool
    requires headers { HeadersRise loops.now }
    requires within { i < length loops.now }
    ensures { (l : CertifiedLoop) → IsEntryAt loops.now i l → IsTrue result ↔ SharesHeader loops.now i l }
{
    let header = loops[i].header();
    if i > 0 && loops[i - 1].header() == header {
        return true;
    }
    i + 1 < loops.len() && loops[i + 1].header() == header
}

/// Whether a loop crosses loop `i`, where no earlier loop crosses another.
fn crosses_another(loops: &[CertLoop], i: usize) -> bool
    requires members { MembersRise loops.now }
    requires within { i < length loops.now }
    requires earlier { (j : ℕ) (m : CertifiedLoop) → j < i → IsEntryAt loops.now j m → ¬ CrossesAnother loops.now m }
    ensures { (l : CertifiedLoop) → IsEntryAt loops.now i l → IsTrue result ↔ CrossesAnother loops.now l }
{
    for k in i + 1..loops.len() {
        if crosses(&loops[i], &loops[k]) {
            return true;
        }
    }
    false
}

/// Whether loop `k` is another loop than loop `i`, and a region in which that one lies.
pub fn is_region_around(loops: &[CertLoop], k: usize, i: usize) -> bool
    requires members { MembersRise loops.now }
    requires outer { k < length loops.now }
    requires inner { i < length loops.now }
    ensures { (l m : CertifiedLoop) → IsEntryAt loops.now i l → IsEntryAt loops.now k m → IsTrue result ↔ (k ≢ i) × (m.region ≡ true) × LiesIn l m }
{
    if k == i {
        return false;
    }
    if !loops[k].region() {
        return false;
    }
    lies_in(loops[i].members(), loops[k].members())
}

/// Whether another loop is a region in which loop `i` lies.
fn lies_in_region(loops: &[CertLoop], i: usize) -> bool
    requires members { MembersRise loops.now }
    requires within { i < length loops.now }
    ensures { (l : CertifiedLoop) → IsEntryAt loops.now i l → IsTrue result ↔ LiesInRegion loops.now i l }
{
    for k in 0..loops.len() {
        if is_region_around(loops, k, i) {
            return true;
        }
    }
    false
}

/// Whether loop `i` shares its header, leaves it out, crosses a loop, or is a region that doesn't fit
/// or that lies in another, where no earlier loop is faulty.
fn is_faulty(loops: &[CertLoop], loads: &[Option<u64>], i: usize) -> bool
    requires headers { HeadersRise loops.now }
    requires members { MembersRise loops.now }
    requires loads { length loads.now ≡ length loops.now }
    requires within { i < length loops.now }
    requires earlier { (j : ℕ) (m : CertifiedLoop) → j < i → IsEntryAt loops.now j m → ¬ IsFaulty loops.now loads.now j m }
    ensures { (l : CertifiedLoop) → IsEntryAt loops.now i l → IsTrue result ↔ IsFaulty loops.now loads.now i l }
{
    let l = &loops[i];
    if shares_header(loops, i) {
        return true;
    }
    if !has(l.members(), l.header()) {
        return true;
    }
    if crosses_another(loops, i) {
        return true;
    }
    if !l.region() {
        return false;
    }
    if loads[i].is_none() {
        return true;
    }
    lies_in_region(loops, i)
}

/// The least header of a faulty loop.
pub fn faulty_header(loops: &[CertLoop], loads: &[Option<u64>]) -> Option<u32>
    requires headers { HeadersRise loops.now }
    requires members { MembersRise loops.now }
    requires loads { length loads.now ≡ length loops.now }
    ensures { IsLeast (HeadsFaulty loops.now loads.now) result }
{
    for i in 0..loops.len() {
        if is_faulty(loops, loads, i) {
            return Some(loops[i].header());
        }
    }
    None
}
