//! The facts that have prices in the root, by their methods.
ghost use Rattle.std.specs.Prelude.{◌≡◌, [], IfOk, OnOk, replicate};
ghost use Rattle.fact_rules.specs.Pricing.{Pricing};
ghost use Rattle.fact_checker.specs.RootTable.{AddsRootFact, AreRootFacts};

use super::fact_index::FactIndex;
use super::fact_prices::FactPrices;
use base::NoMemory;
use priced_cert::RootPrice;
use priced_sections::fact::FactPrice;
use std::alloc::Global;

/// No facts of so many methods.
fn none_yet(alloc: Global, methods: u32) -> Result<Vec<FactPrices>, NoMemory>
    ensures { IfOk result (λ table. table.items ≡ replicate methods []) }
{
    let mut table = Vec::new(alloc);
    for _ in 0..methods {
        table.push(FactPrices::new(alloc))?;
    }
    Ok(table)
}

/// Puts the fact of a price behind those of its method.
fn add(
    table: &mut [FactPrices],
    index: &FactIndex<'_>,
    root: u32,
    price: RootPrice,
) -> Result<(), NoMemory>
    ensures { OnOk result ((q : Pricing) → q.facts ≡ index.now → q.root ≡ root → AddsRootFact q price table.old table.new) }
{
    let Some(most) = index.most_in_root(root, price) else {
        return Ok(());
    };
    let method = price.method as usize;
    if method < table.len() {
        table[method].push(FactPrice::new(price.node, most, None, price.price))?;
    }
    Ok(())
}

/// For each of so many methods the facts of it that have these prices in the root.
pub fn root_table(
    alloc: Global,
    index: &FactIndex<'_>,
    root: u32,
    prices: &[RootPrice],
    methods: u32,
) -> Result<Vec<FactPrices>, NoMemory>
    ensures { IfOk result (λ table. AreRootFacts (record { facts = index.now; root = root; root_prices = prices.now }) methods table.items) }
{
    let mut table = none_yet(alloc, methods)?;
    for price in prices {
        add(&mut table, index, root, *price)?;
    }
    Ok(table)
}
