//! What visits of nodes give back, what entries of loops pay, and what the activation pays.
ghost use Rattle.std.specs.Prelude.{◌≡◌, ℕ, ◌+◌, ◌*◌, ◌^◌, ◌<◌, ◌≤◌, if◌then◌else◌, length, slice_index, unwrap_or, IfOk};
ghost use Rattle.section_check.specs.Bounded.{holds};
ghost use Rattle.section_check.specs.Section.{HeadersRise};
ghost use Rattle.section_check.specs.Heading.{IsFirstHeaded};
ghost use Rattle.priced_sections.specs.Prices.{credit_of, own_due, due_of_own, due_of_header, header_due};
ghost use Rattle.priced_sections.specs.Views.{back_of, loops_in, IsView, AreCredits, ArePlainFees, AreFees};

use super::fact::FactPrice;
use super::view::PricedView;
use section_check::lookups::find_header;
use section_check::section::CertLoop;
use std::alloc::{AllocError, Global};

/// Adds to its node what a visit gives back of a fact.
fn add_credit(credits: &mut [u128], fact: &FactPrice)
    requires room { (u : ℕ) → slice_index credits.old u < 2 ^ 127 }
    ensures long { length credits.new ≡ length credits.old }
    ensures each { (u : ℕ) → u < length credits.old
        → slice_index credits.new u ≡ slice_index credits.old u + (if holds fact.now.nodes u then fact.now.price else 0) }
    ensures few { (u : ℕ) → slice_index credits.new u ≤ slice_index credits.old u + 2 ^ 64 }
{
    let u = fact.node() as usize;
    if u < credits.len() {
        credits[u] += u128::from(fact.price());
    }
}

/// Adds to the nodes what visits give back of these facts.
fn add_credits(credits: &mut [u128], facts: &[FactPrice])
    requires facts { length facts.now < 2 ^ 24 }
    requires room { (u : ℕ) → slice_index credits.old u < 2 ^ 100 }
    ensures long { length credits.new ≡ length credits.old }
    ensures each { (u : ℕ) → u < length credits.old → slice_index credits.new u ≡ slice_index credits.old u + credit_of facts.now u }
    ensures few { (u : ℕ) → slice_index credits.new u ≤ slice_index credits.old u + 2 ^ 88 }
{
    for fact in facts {
        add_credit(credits, fact);
    }
}

/// Adds to the nodes what visits give back of these facts and of those.
fn add_both(credits: &mut [u128], facts: &[FactPrice], others: &[FactPrice])
    requires facts { length facts.now < 2 ^ 24 }
    requires others { length others.now < 2 ^ 24 }
    requires room { (u : ℕ) → slice_index credits.old u < 2 ^ 64 }
    ensures long { length credits.new ≡ length credits.old }
    ensures each { (u : ℕ) → u < length credits.old
        → slice_index credits.new u ≡ slice_index credits.old u + (credit_of facts.now u + credit_of others.now u) }
    ensures few { (u : ℕ) → slice_index credits.new u ≤ slice_index credits.old u + 2 ^ 89 }
{
    add_credits(credits, facts);
    add_credits(credits, others);
}

/// For each node what a visit gives back.
pub fn credits(alloc: Global, q: &PricedView) -> Result<Vec<u128>, AllocError>
    requires { IsView q.now }
    ensures { IfOk result (λ found. AreCredits q.now found.items) }
{
    let mut found = vec![in alloc; 0u128; q.graph.nodes() as usize]?;
    add_both(&mut found, q.facts, q.others);
    Ok(found)
}

/// What an entry of a loop pays without facts: its iterations and its load.
fn plain_fee(iteration_cost: u64, bound: u32, load: Option<u64>) -> u128
    ensures value { result ≡ bound * iteration_cost + unwrap_or load 0 }
    ensures small { bound * iteration_cost + unwrap_or load 0 < 2 ^ 97 }
{
    u128::from(bound) * u128::from(iteration_cost) + u128::from(load.unwrap_or(0))
}

/// For each loop what an entry pays without facts.
fn plain_fees(
    alloc: Global,
    loops: &[CertLoop],
    bounds: &[u32],
    loads: &[Option<u64>],
) -> Result<Vec<u128>, AllocError>
    requires bounds { length bounds.now ≡ length loops.now }
    requires loads { length loads.now ≡ length loops.now }
    ensures { IfOk result (λ fees. ArePlainFees loops.now bounds.now loads.now fees.items) }
{
    let mut fees = Vec::new(alloc);
    for i in 0..loops.len() {
        fees.push(plain_fee(loops[i].iteration_cost(), bounds[i], loads[i]))?;
    }
    Ok(fees)
}

/// Adds to its loop what an entry pays for a fact.
fn add_due(fees: &mut [u128], loops: &[CertLoop], fact: &FactPrice)
    requires headers { HeadersRise loops.now }
    requires same { length fees.old ≡ length loops.now }
    requires room { (i : ℕ) → slice_index fees.old i < 2 ^ 127 }
    ensures long { length fees.new ≡ length fees.old }
    ensures each { (u i : ℕ) → IsFirstHeaded loops.now u i
        → slice_index fees.new i ≡ slice_index fees.old i + due_of_header u fact.now.header (fact.now.price * fact.now.most) }
    ensures few { (i : ℕ) → slice_index fees.new i ≤ slice_index fees.old i + 2 ^ 96 }
{
    let Some(header) = fact.header() else {
        return;
    };
    if let Some(i) = find_header(loops, header) {
        fees[i] += fact.due();
    }
}

/// Adds to the loops what entries pay for these facts.
fn add_dues(fees: &mut [u128], loops: &[CertLoop], facts: &[FactPrice])
    requires headers { HeadersRise loops.now }
    requires same { length fees.old ≡ length loops.now }
    requires facts { length facts.now < 2 ^ 24 }
    requires room { (i : ℕ) → slice_index fees.old i < 2 ^ 97 }
    ensures long { length fees.new ≡ length fees.old }
    ensures each { (u i : ℕ) → IsFirstHeaded loops.now u i → slice_index fees.new i ≡ slice_index fees.old i + header_due facts.now u }
    ensures few { (i : ℕ) → slice_index fees.new i ≤ slice_index fees.old i + 2 ^ 120 }
{
    for fact in facts {
        add_due(fees, loops, fact);
    }
}

/// For each loop what an entry pays.
pub fn fees(alloc: Global, q: &PricedView) -> Result<Vec<u128>, AllocError>
    requires { IsView q.now }
    ensures { IfOk result (λ found. AreFees q.now found.items) }
{
    let loops = q.section.loops();
    let mut found = plain_fees(alloc, loops, q.bounds, q.loads)?;
    add_dues(&mut found, loops, q.facts);
    Ok(found)
}

/// What the activation pays for a fact.
fn due_in_all(fact: &FactPrice) -> u128
    ensures value { result ≡ due_of_own fact.now.header (fact.now.price * fact.now.most) }
    ensures small { result < 2 ^ 96 }
{
    match fact.header() {
        Some(_) => 0,
        None => fact.due(),
    }
}

/// What the activation pays for these facts.
pub fn own_dues(facts: &[FactPrice]) -> u128
    requires { length facts.now < 2 ^ 24 }
    ensures value { result ≡ own_due facts.now }
    ensures small { own_due facts.now < 2 ^ 120 }
{
    let mut due = 0u128;
    for fact in facts {
        due += due_in_all(fact);
    }
    due
}
