//! What is wrong with the loops of a section among themselves.
ghost use Rattle.std.specs.Prelude.{◌≡◌, ℕ, ◌<◌, ◌↔◌, length, Contains, IsTrue};
ghost use Rattle.section_check.specs.Section.{CertifiedLoop, HeadersRise, MembersRise};
ghost use Rattle.section_check.specs.Placing.{IsEntryAt, LiesInRegion, IsFaulty, HeadsFaulty};
ghost use Rattle.section_check.specs.Least.{IsLeast};
ghost use Rattle.section_index.specs.Numbering.{AreNumbers, AreHolders, Crosses};

use super::numbering::place;
use loop_nest::digraph::Sources;
use section_check::faulty::{is_region_around, shares_header};
use section_check::lookups::has;
use section_check::section::CertLoop;

/// Whether another loop is a region in which loop `i` lies. Such a region holds its header.
fn lies_in_region(loops: &[CertLoop], numbers: &[u32], holders: &Sources, i: usize) -> bool
    requires members { MembersRise loops.now }
    requires numbers { AreNumbers loops.now numbers.now }
    requires holders { AreHolders numbers.now loops.now holders.now }
    requires within { i < length loops.now }
    ensures { (l : CertifiedLoop) → IsEntryAt loops.now i l → Contains l.members l.header → IsTrue result ↔ LiesInRegion loops.now i l }
{
    let Some(p) = place(numbers, loops[i].header()) else {
        return false;
    };
    let around = holders.of(p as u32);
    for k in around {
        if is_region_around(loops, *k as usize, i) {
            return true;
        }
    }
    false
}

/// Whether there is a place, and it is `i`.
fn is_at(place: Option<usize>, i: usize) -> bool
    ensures { IsTrue result ↔ (place ≡ Some i) }
{
    match place {
        Some(k) => k == i,
        None => false,
    }
}

/// Whether loop `i` shares its header, leaves it out, crosses a loop, or is a region that doesn't fit
/// or that lies in another, where no earlier loop is faulty.
fn is_faulty(
    loops: &[CertLoop],
    loads: &[Option<u64>],
    numbers: &[u32],
    holders: &Sources,
    crossing: Option<usize>,
    i: usize,
) -> bool
    requires headers { HeadersRise loops.now }
    requires members { MembersRise loops.now }
    requires loads { length loads.now ≡ length loops.now }
    requires numbers { AreNumbers loops.now numbers.now }
    requires holders { AreHolders numbers.now loops.now holders.now }
    requires crossing { IsLeast (Crosses loops.now) crossing }
    requires within { i < length loops.now }
    requires earlier { (j : ℕ) (m : CertifiedLoop) → j < i → IsEntryAt loops.now j m → ¬ IsFaulty loops.now loads.now j m }
    ensures { (l : CertifiedLoop) → IsEntryAt loops.now i l → IsTrue result ↔ IsFaulty loops.now loads.now i l }
{
    let l = &loops[i];
    if shares_header(loops, i) {
        return true;
    }
    if !has(l.members(), l.header()) {
        return true;
    }
    if is_at(crossing, i) {
        return true;
    }
    if !l.region() {
        return false;
    }
    if loads[i].is_none() {
        return true;
    }
    lies_in_region(loops, numbers, holders, i)
}

/// The least header of a faulty loop.
pub fn faulty_header(
    loops: &[CertLoop],
    loads: &[Option<u64>],
    numbers: &[u32],
    holders: &Sources,
    crossing: Option<usize>,
) -> Option<u32>
    requires headers { HeadersRise loops.now }
    requires members { MembersRise loops.now }
    requires loads { length loads.now ≡ length loops.now }
    requires numbers { AreNumbers loops.now numbers.now }
    requires holders { AreHolders numbers.now loops.now holders.now }
    requires crossing { IsLeast (Crosses loops.now) crossing }
    ensures { IsLeast (HeadsFaulty loops.now loads.now) result }
{
    for i in 0..loops.len() {
        if is_faulty(loops, loads, numbers, holders, crossing, i) {
            return Some(loops[i].header());
        }
    }
    None
}
