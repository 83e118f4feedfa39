//! The first price of a certificate that is of no fact.
ghost use Rattle.std.specs.Prelude.{◌≡◌, length, map};
ghost use Rattle.fact_rules.specs.Pricing.{Pricing, placed_in, placed_in_root, placed_prices, pricing_of, with_prices};
ghost use Rattle.fact_rules.specs.Conditions.{sections_of};
ghost use Rattle.fact_checker.specs.Missing.{IsMissing, placed_in_sections};

use super::fact_index::FactIndex;
use certificates::CertSection;
use priced_cert::{Price, PricedCert, Prices, RootPrice};

/// The method and the node of the first of the prices in the root that is of no fact.
fn missing_in_root(index: &FactIndex<'_>, root: u32, prices: &[RootPrice]) -> Option<(u32, u32)>
    ensures { (q : Pricing) → q.facts ≡ index.now → q.root ≡ root → IsMissing (map (placed_in_root q) prices.now) result }
{
    for price in prices {
        if index.most_in_root(root, *price).is_none() {
            return Some((price.method, price.node));
        }
    }
    None
}

/// The method and the node of the first of the prices of a section of the method that is of no fact.
fn missing_in_section(index: &FactIndex<'_>, method: u32, prices: &[Price]) -> Option<(u32, u32)>
    ensures { IsMissing (map (placed_in index.now method) prices.now) result }
{
    for price in prices {
        if index.most_in_section(method, *price).is_none() {
            return Some((method, price.node));
        }
    }
    None
}

/// The method and the node of the first of the prices of sections that is of no fact.
fn missing_in_sections(
    index: &FactIndex<'_>,
    sections: &[CertSection],
    prices: &[Prices],
) -> Option<(u32, u32)>
    requires { length prices.now ≡ length sections.now }
    ensures { IsMissing (placed_in_sections index.now (with_prices sections.now prices.now)) result }
{
    for i in 0..sections.len() {
        let missing = missing_in_section(index, sections[i].method, prices[i].as_slice());
        if missing.is_some() {
            return missing;
        }
    }
    None
}

/// The method and the node of the first price of a certificate that is of no fact.
pub fn missing(index: &FactIndex<'_>, c: &PricedCert) -> Option<(u32, u32)>
    requires { length c.now.prices ≡ length c.now.plain.sections }
    ensures { IsMissing (placed_prices (pricing_of index.now c.now) (sections_of c.now)) result }
{
    let plain = c.plain();
    let missing = missing_in_root(index, plain.root(), c.root_prices());
    if missing.is_some() {
        return missing;
    }
    missing_in_sections(index, plain.sections(), c.prices())
}
