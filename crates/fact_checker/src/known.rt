//! A certificate with prices each of which is of a fact.
ghost use Rattle.std.specs.Prelude.{◌≡◌, ◌*◌, ◌<◌, ◌^◌};
ghost use Rattle.std.specs.Option.{option_map_or};
ghost use Rattle.fact_rules.specs.Pricing.{fact_at, is_in_root};

use super::fact_index::FactIndex;
use super::fact_prices::{FactPrices, MOST_FACTS};
use super::missing::missing;
use super::root_table::root_table;
use base::NoMemory;
use bound_rules::CheckFault;
use certificates::CertSection;
use fact_rules::PricedFault;
use flow_facts::Facts;
use priced_cert::{Price, PricedCert, RootPrice};
use priced_sections::fact::FactPrice;
use std::alloc::Global;
use std::marker::Model;

/// A section and the prices of its method's facts.
#[derive(Drop)]
pub struct SectionPrices<'a> {
    pub plain: &'a CertSection,
    pub prices: &'a [Price],
}

impl<'a> Model for SectionPrices<'a> {
    ghost use Rattle.fact_rules.specs.Pricing.{PricedSection};

    ghost Value = { PricedSection };

    ghost view = { λ s. record { plain = s.plain.now; prices = s.prices.now } };
}

/// A certificate with prices, each of which is of a fact, with the facts, and for each method those that have prices in the
/// root.
#[derive(Drop)]
pub struct KnownPrices<'a> {
    index: FactIndex<'a>,
    certificate: &'a PricedCert,
    in_root: Vec<FactPrices>,
}

impl<'a> Model for KnownPrices<'a> {
    ghost use Rattle.std.specs.Prelude.{length};
    ghost use Rattle.fact_checker.specs.Known.{GivenPrices, IsKnown};

    ghost Value = { GivenPrices };

    ghost view = { λ k. record { facts = k.index; certificate = k.certificate.now; methods = length k.in_root.items } };

    ghost invariant = { λ k. IsKnown (record { facts = k.index; certificate = k.certificate.now; methods = length k.in_root.items }) k.in_root.items };
}

/// What an activation of the root pays for a price there.
fn due(index: &FactIndex<'_>, root: u32, price: RootPrice) -> u128
    ensures value { result ≡ price.price * option_map_or (λ f. f.most) (fact_at index.now.counts price.method price.node (is_in_root root)) 0 }
    ensures small { result < 2 ^ 96 }
{
    match index.most_in_root(root, price) {
        Some(most) => u128::from(price.price) * u128::from(most),
        None => 0,
    }
}

impl<'a> KnownPrices<'a> {
    ghost use Rattle.std.specs.Prelude.{◌≡◌, ◌<◌, ◌^◌, IfErr, IfOk, Some, length, slice_get};
    ghost use Rattle.fact_rules.specs.Pricing.{own_facts, placed_prices, pricing_of, root_due, root_facts};
    ghost use Rattle.fact_rules.specs.Conditions.{AreOfFacts, sections_of};
    ghost use Rattle.fact_checker.specs.Known.{pricing};
    ghost use Rattle.fact_checker.specs.Missing.{IsMissingOrMemory};

    /// A certificate of which each price is of one of these facts, in a program of so many methods; or the first price that
    /// is of none. It takes memory for the facts and the prices.
    pub fn new(
        alloc: Global,
        facts: &'a Facts,
        certificate: &'a PricedCert,
        methods: u32,
    ) -> Result<Self, PricedFault>
        requires { length certificate.now.prices ≡ length certificate.now.plain.sections }
        ensures known { IfOk result (λ k. k ≡ record { facts = facts.now; certificate = certificate.now; methods = methods }) }
        ensures facts { IfOk result (λ _. AreOfFacts (placed_prices (pricing_of facts.now certificate.now) (sections_of certificate.now))) }
        ensures missing { IfErr result (IsMissingOrMemory facts.now certificate.now) }
    {
        let Ok(index) = FactIndex::new(alloc, facts) else {
            return Err(PricedFault::Check(CheckFault::NoMemory));
        };
        if let Some((method, node)) = missing(&index, certificate) {
            return Err(PricedFault::Price(method, node));
        }
        match KnownPrices::with_index(alloc, index, certificate, methods) {
            Ok(known) => Ok(known),
            Err(_) => Err(PricedFault::Check(CheckFault::NoMemory)),
        }
    }

    /// The same, where each price is of a fact of the index.
    fn with_index(
        alloc: Global,
        index: FactIndex<'a>,
        certificate: &'a PricedCert,
        methods: u32,
    ) -> Result<Self, NoMemory>
        requires same { length certificate.now.prices ≡ length certificate.now.plain.sections }
        requires facts { AreOfFacts (placed_prices (pricing_of index certificate.now) (sections_of certificate.now)) }
        ensures { IfOk result (λ k. k ≡ record { facts = index.entry; certificate = certificate.now; methods = methods }) }
    {
        let prices = certificate.root_prices();
        if prices.len() > MOST_FACTS {
            return Err(NoMemory);
        }
        let in_root = root_table(alloc, &index, certificate.plain().root(), prices, methods)?;
        Ok(KnownPrices {
            index,
            certificate,
            in_root,
        })
    }

    /// The number of its sections.
    pub fn section_count(&self) -> usize
        ensures { result ≡ length self.now.certificate.plain.sections }
    {
        self.certificate.plain().sections().len()
    }

    /// The section of this number with its prices.
    pub fn section(&self, i: usize) -> SectionPrices<'_>
        requires { i < length self.now.certificate.plain.sections }
        ensures { slice_get (sections_of self.now.certificate) i ≡ Some result }
    {
        SectionPrices {
            plain: &self.certificate.plain().sections()[i],
            prices: self.certificate.prices()[i].as_slice(),
        }
    }

    /// The facts of a section's method that have prices there.
    pub fn own(&self, alloc: Global, s: &SectionPrices<'_>) -> Result<FactPrices, NoMemory>
        ensures { IfOk result (λ own. own ≡ own_facts self.now.facts s.now) }
    {
        let mut own = FactPrices::new(alloc);
        for price in s.prices {
            if let Some(most) = self.index.most_in_section(s.plain.method, *price) {
                own.push(FactPrice::new(price.node, most, price.header, price.price))?;
            }
        }
        Ok(own)
    }

    /// The facts of a method that have prices in the root.
    pub fn others(&self, method: u32) -> &[FactPrice]
        requires { method < self.now.methods }
        ensures facts { result.now ≡ root_facts (pricing self.now) method }
        ensures few { length result.now < 2 ^ 24 }
    {
        self.in_root[method as usize].as_slice()
    }

    /// What an activation of the root pays for the prices there.
    pub fn root_due(&self) -> u128
        ensures value { result ≡ root_due (pricing self.now) }
        ensures small { root_due (pricing self.now) < 2 ^ 120 }
    {
        let root = self.root();
        let mut sum = 0u128;
        for price in self.certificate.root_prices() {
            sum += due(&self.index, root, *price);
        }
        sum
    }

    /// The number of the method that it is about.
    pub fn root(&self) -> u32
        ensures { result ≡ self.now.certificate.plain.root }
    {
        self.certificate.plain().root()
    }

    /// The bound that it shows.
    pub fn bound(&self) -> Option<u64>
        ensures { result ≡ self.now.certificate.plain.bound }
    {
        self.certificate.plain().bound()
    }
}
