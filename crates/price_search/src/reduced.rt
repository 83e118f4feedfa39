//! Costs with prices.
ghost use Rattle.std.specs.Prelude.{◌≡◌, length, IfOk};

use super::problem::{Problem, VisitFact, add_at};
use base::NoMemory;
use std::alloc::Global;

/// What the nodes cost less what their visits give back, what an entry of each loop pays beside its iterations, and what an
/// activation pays; in cycles.
#[derive(Drop)]
pub struct Reduced {
    pub costs: Vec<i128>,
    pub dues: Vec<i128>,
    pub own_due: i128,
}

/// Gives a fact one more price.
pub(crate) fn give(reduced: &mut Reduced, fact: VisitFact, price: u64)
    ensures costs { length reduced.new.costs.items ≡ length reduced.old.costs.items }
    ensures dues { length reduced.new.dues.items ≡ length reduced.old.dues.items }
{
    let price = i128::from(price);
    add_at(
        &mut reduced.costs,
        fact.node as usize,
        price.saturating_neg(),
    );
    let due = price.saturating_mul(i128::from(fact.most));
    match fact.loop_number {
        Some(i) => add_at(&mut reduced.dues, i, due),
        None => reduced.own_due = reduced.own_due.saturating_add(due),
    }
}

/// These numbers, with a sign.
fn widened(alloc: Global, numbers: &[u64]) -> Result<Vec<i128>, NoMemory>
    ensures { IfOk result (λ wide. length wide.items ≡ length numbers.now) }
{
    let mut wide = Vec::new(alloc);
    for number in numbers {
        wide.push(i128::from(*number))?;
    }
    Ok(wide)
}

/// The costs where the facts have these prices, and none where there are fewer prices.
pub fn with_prices(
    alloc: Global,
    problem: &Problem,
    facts: &[VisitFact],
    prices: &[u64],
) -> Result<Reduced, NoMemory>
    ensures costs { IfOk result (λ r. length r.costs.items ≡ length problem.now.costs.now) }
    ensures dues { IfOk result (λ r. length r.dues.items ≡ length problem.now.loads.now) }
{
    let costs = widened(alloc, problem.costs)?;
    let dues = widened(alloc, problem.loads)?;
    let mut reduced = Reduced {
        costs,
        dues,
        own_due: 0,
    };
    for f in 0..facts.len() {
        let price = prices.get(f).copied().unwrap_or(0);
        give(&mut reduced, facts[f], price);
    }
    Ok(reduced)
}
