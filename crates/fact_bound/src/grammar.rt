//! Whether a certificate can be written as a text.
ghost use Rattle.std.specs.Prelude.{◌≡◌, ◌≢◌, ◌<◌, ◌^◌, [], length, map, true, All, IsTrue, IfSome};
ghost use Rattle.std.specs.List.{AllPairs};
ghost use Rattle.std.specs.List.Sorted.{IsStrictlyIncreasing};
ghost use Rattle.section_check.specs.Section.{listed, ArePotentials, IsPotential};
ghost use Rattle.certificates.specs.declared.lines.line.SectionKind.TheVariants.{Alone, Loops};
ghost use Rattle.certificates.specs.CertLines.{IsBoundValue};
ghost use Rattle.certificates.specs.Certificate.{IsLoopInText, IsSectionInText, sort_of};
ghost use Rattle.certificates.specs.Loop.{AreLoopMembers};
ghost use Rattle.priced_cert.specs.Certificate.{IsPricedInGrammar};
ghost use Rattle.priced_cert.specs.Prices.{ArePrices, IsPriceInRange, StandsBefore};
ghost use Rattle.fact_bound.specs.Grammar.{AreInGrammar, IsBehindAll, IsNewMethod};

use certificates::{Cert, CertSection, SectionKind};
use loop_nest::digraph::are_rising;
use priced_cert::{Price, PricedCert, Prices};
use section_check::section::CertLoop;
use std::alloc::Global;

/// Whether each listed node is below the next.
fn nodes_rise(nodes: &[(u32, i128)]) -> bool
    ensures { IsTrue result → IsStrictlyIncreasing (listed nodes.now) }
{
    for i in 1..nodes.len() {
        if nodes[i - 1].0 >= nodes[i].0 {
            return false;
        }
    }
    true
}

/// Whether a number has 64 bits beside its sign.
fn is_potential(p: i128) -> bool
    ensures { IsTrue result → IsPotential p }
{
    let most = i128::from(u64::MAX);
    -most <= p && p <= most
}

/// Whether all potentials have 64 bits beside their signs.
fn are_potentials(nodes: &[(u32, i128)]) -> bool
    ensures places { IsTrue result → All (λ u. u < 2 ^ 32) (listed nodes.now) }
    ensures potentials { IsTrue result → ArePotentials nodes.now }
{
    for i in 0..nodes.len() {
        // The node is read for the proof alone.
        let (_node, potential) = nodes[i];
        if !is_potential(potential) {
            return false;
        }
    }
    true
}

/// Whether each header is below the next.
fn headers_rise(loops: &[CertLoop]) -> bool
    ensures { IsTrue result → IsStrictlyIncreasing (map (λ l. l.header) loops.now) }
{
    for i in 1..loops.len() {
        if loops[i - 1].header() >= loops[i].header() {
            return false;
        }
    }
    true
}

/// Whether there are members, and they rise.
fn are_members(members: &[u32]) -> bool
    ensures { IsTrue result → AreLoopMembers members.now }
{
    if members.is_empty() {
        return false;
    }
    are_rising(members)
}

/// Whether a loop's header is an instruction, and it has members, which rise.
fn is_loop_in_text(l: &CertLoop) -> bool
    ensures { IsTrue result → IsLoopInText l.now }
{
    // Its clause is for the proof alone.
    let _cost = l.iteration_cost();
    if l.header() % 2 != 0 {
        return false;
    }
    are_members(l.members())
}

/// The same of each loop.
fn are_loops_in_text(loops: &[CertLoop]) -> bool
    ensures { IsTrue result → All IsLoopInText loops.now }
{
    for i in 0..loops.len() {
        if !is_loop_in_text(&loops[i]) {
            return false;
        }
    }
    true
}

/// Whether none of the loops is a region.
fn have_no_region(loops: &[CertLoop]) -> bool
    ensures { IsTrue result → All (λ l. ¬ (l.region ≡ true)) loops.now }
{
    for i in 0..loops.len() {
        if loops[i].region() {
            return false;
        }
    }
    true
}

/// Whether a section of version 3 may be of the kind of this one, and its regions are of that kind.
fn has_kind(s: &CertSection) -> bool
    ensures kind { IsTrue result → s.now.kind ≢ Alone }
    ensures regions { IsTrue result → All (λ l. l.region ≡ true → s.now.kind ≡ Loops) s.now.section.loops }
{
    match s.kind {
        SectionKind::Loops => true,
        SectionKind::Inside => have_no_region(s.section.loops()),
        SectionKind::Alone => false,
    }
}

/// Whether a section's numbers rise, its potentials keep within 64 bits, and version 3 has its kind.
fn is_section_in_text(s: &CertSection) -> bool
    ensures text { IsTrue result → IsSectionInText 2 s.now }
    ensures kind { IsTrue result → s.now.kind ≢ Alone }
{
    // Its range is for the proof alone.
    let _method = s.method;
    if !has_kind(s) {
        return false;
    }
    if !nodes_rise(s.section.nodes()) {
        return false;
    }
    if !are_potentials(s.section.nodes()) {
        return false;
    }
    if !headers_rise(s.section.loops()) {
        return false;
    }
    are_loops_in_text(s.section.loops())
}

/// The same of each section.
fn are_sections_in_text(sections: &[CertSection]) -> bool
    ensures text { IsTrue result → All (IsSectionInText 2) sections.now }
    ensures kinds { IsTrue result → All (λ s. s.kind ≢ Alone) sections.now }
{
    for i in 0..sections.len() {
        if !is_section_in_text(&sections[i]) {
            return false;
        }
    }
    true
}

/// Whether the method of the section at a place has no section before it.
fn is_new_method(sections: &[CertSection], i: usize) -> bool
    requires { i < length sections.now }
    ensures { IsTrue result → IsNewMethod sections.now i }
{
    for k in 0..i {
        if sections[k].method == sections[i].method {
            return false;
        }
    }
    true
}

/// Whether no method has two sections.
fn are_apart(sections: &[CertSection]) -> bool
    ensures { IsTrue result → AllPairs (λ a b. a ≢ b) (map sort_of sections.now) }
{
    for i in 0..sections.len() {
        if !is_new_method(sections, i) {
            return false;
        }
    }
    true
}

/// Whether a price isn't 0, and its header is an instruction where it has one.
fn is_price(x: Price) -> bool
    ensures { IsTrue result → IsPriceInRange x }
{
    match x.header {
        Some(header) => x.price > 0 && header % 2 == 0,
        None => x.price > 0,
    }
}

/// Whether a price stands before another one.
fn stands_before(a: Price, b: Price) -> bool
    ensures { IsTrue result → StandsBefore a.node a.header b.node b.header }
{
    match (a.header, b.header) {
        (None, None) => a.node < b.node,
        (None, Some(_)) => true,
        (Some(_), None) => false,
        (Some(h), Some(k)) => a.node < b.node || (a.node == b.node && h < k),
    }
}

/// Whether the price at a place stands behind all before it.
fn is_behind(prices: &[Price], i: usize) -> bool
    requires { i < length prices.now }
    ensures { IsTrue result → IsBehindAll prices.now i }
{
    for k in 0..i {
        if !stands_before(prices[k], prices[i]) {
            return false;
        }
    }
    true
}

/// Whether prices are in range and stand in their order.
fn are_prices(prices: &[Price]) -> bool
    ensures { IsTrue result → ArePrices prices.now }
{
    for i in 0..prices.len() {
        if !is_price(prices[i]) {
            return false;
        }
        if !is_behind(prices, i) {
            return false;
        }
    }
    true
}

/// The same of the prices of each section.
fn are_all_prices(prices: &[Prices]) -> bool
    ensures { IsTrue result → All ArePrices prices.now }
{
    for i in 0..prices.len() {
        if !are_prices(prices[i].as_slice()) {
            return false;
        }
    }
    true
}

/// Whether sections and their prices are those of a certificate of version 3.
fn are_in_grammar(sections: &[CertSection], prices: &[Prices]) -> bool
    ensures { IsTrue result → AreInGrammar sections.now prices.now }
{
    if prices.len() != sections.len() {
        return false;
    }
    if !are_sections_in_text(sections) {
        return false;
    }
    if !are_apart(sections) {
        return false;
    }
    are_all_prices(prices)
}

/// Says that a bound has 64 bits.
fn bound_value_of(bound: Option<u64>)
    ensures { IsBoundValue bound }
{
    match bound {
        Some(_cycles) => (),
        None => (),
    }
}

/// The certificate with these sections and prices, and none in the root, where it can be written as a text.
pub(crate) fn certificate_in_grammar(
    alloc: Global,
    root: u32,
    sections: Vec<CertSection>,
    prices: Vec<Prices>,
    bound: Option<u64>,
) -> Option<PricedCert>
    ensures { IfSome result (λ c. IsPricedInGrammar c × (c.plain.root ≡ root) × (c.root_prices ≡ [])) }
{
    if !are_in_grammar(&sections, &prices) {
        return None;
    }
    // Its clause is for the proof alone.
    bound_value_of(bound);
    let plain = Cert::new(2, root, sections, bound);
    Some(PricedCert::new(plain, Vec::new(alloc), prices))
}
