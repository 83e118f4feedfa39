//! The search.
ghost use Rattle.std.specs.Prelude.{◌≡◌, length, IfOk};
ghost use Rattle.price_search.specs.Problem.{HasSources};

use super::counting::{counted, slack};
use super::guessing::{Guess, guess_prices, innermost_loops};
use super::lines::{Line, greatest_at, least_from, price_at};
use super::problem::{Problem, VisitFact};
use super::reduced::with_prices;
use super::sweep::{swept, unswept};
use base::NoMemory;
use std::alloc::Global;

/// The number of sweeps after the guess, at most.
const SWEEPS: usize = 8;

/// The line of a greatest walk at these prices.
fn line_at(
    alloc: Global,
    problem: &Problem,
    facts: &[VisitFact],
    prices: Vec<u64>,
) -> Result<Line, NoMemory>
    requires { HasSources problem.now }
{
    let r = with_prices(alloc, problem, facts, &prices)?;
    let s = swept(alloc, problem, &r)?;
    let c = counted(alloc, problem, &r.costs, &s)?;
    let mut slacks = Vec::new(alloc);
    for fact in facts {
        slacks.push(slack(*fact, &c))?;
    }
    let value = s.value.saturating_add(r.own_due);
    Ok(Line {
        prices,
        value,
        slacks,
    })
}

/// The line with the least value.
fn best_line(lines: &[Line]) -> Option<&Line> {
    let mut best: Option<&Line> = None;
    for line in lines {
        let is_better = match best {
            Some(other) => line.value < other.value,
            None => true,
        };
        if is_better {
            best = Some(line);
        }
    }
    best
}

/// Where descents from these prices, in both orders of the facts, find the lines least.
fn least_of_both(alloc: Global, lines: &[Line], from: &[u64]) -> Result<Vec<u64>, NoMemory> {
    let forwards = least_from(alloc, lines, from, false)?;
    let backwards = least_from(alloc, lines, from, true)?;
    if greatest_at(lines, &backwards) < greatest_at(lines, &forwards) {
        Ok(backwards)
    } else {
        Ok(forwards)
    }
}

/// The better of a point and of where descents from the prices of a line lead.
fn better_point(
    alloc: Global,
    lines: &[Line],
    from: Option<&Line>,
    least: Vec<u64>,
) -> Result<Vec<u64>, NoMemory> {
    let Some(line) = from else {
        return Ok(least);
    };
    let other = least_of_both(alloc, lines, &line.prices)?;
    if greatest_at(lines, &other) < greatest_at(lines, &least) {
        Ok(other)
    } else {
        Ok(least)
    }
}

/// The least point of the greatest of the lines, from the best point, the last three and 0.
fn next_point(alloc: Global, lines: &[Line], zero: &[u64]) -> Result<Vec<u64>, NoMemory> {
    let least = least_of_both(alloc, lines, zero)?;
    let mut least = better_point(alloc, lines, best_line(lines), least)?;
    for line in lines.iter().rev().take(3) {
        least = better_point(alloc, lines, Some(line), least)?;
    }
    Ok(least)
}

/// Whether a line has these prices.
fn was_seen(lines: &[Line], prices: &[u64]) -> bool {
    for line in lines {
        if line.prices.as_slice() == prices {
            return true;
        }
    }
    false
}

/// Prices by a guess for the facts that the line breaks.
fn guessed_prices(
    alloc: Global,
    problem: &Problem,
    facts: &[VisitFact],
    first: &Line,
) -> Result<Vec<u64>, NoMemory>
    requires { HasSources problem.now }
{
    let mut wanted = Vec::new(alloc);
    for slack in &first.slacks {
        wanted.push(*slack < 0)?;
    }
    let innermost = innermost_loops(alloc, problem)?;
    let prices = vec![in alloc; 0; facts.len()]?;
    let sweep = unswept(alloc, problem)?;
    let reduced = with_prices(alloc, problem, facts, &[])?;
    let mut guess = Guess {
        innermost,
        wanted,
        prices,
        sweep,
        reduced,
    };
    guess_prices(alloc, problem, facts, &mut guess)?;
    Ok(guess.prices)
}

/// The lines at 0 and at the guess.
fn first_lines(alloc: Global, problem: &Problem, facts: &[VisitFact]) -> Result<Vec<Line>, NoMemory>
    requires { HasSources problem.now }
{
    let zero = vec![in alloc; 0; facts.len()]?;
    let first = line_at(alloc, problem, facts, zero)?;
    let guess = guessed_prices(alloc, problem, facts, &first)?;
    let second = line_at(alloc, problem, facts, guess)?;
    let mut lines = Vec::new(alloc);
    lines.push(first)?;
    lines.push(second)?;
    Ok(lines)
}

/// Adds the line at the next point; whether there is one that wasn't seen.
fn add_line(
    alloc: Global,
    problem: &Problem,
    facts: &[VisitFact],
    zero: &[u64],
    lines: &mut Vec<Line>,
) -> Result<bool, NoMemory>
    requires { HasSources problem.now }
{
    let next = next_point(alloc, lines, zero)?;
    if was_seen(lines, &next) {
        return Ok(false);
    }
    lines.push(line_at(alloc, problem, facts, next)?)?;
    Ok(true)
}

/// The prices of the best line, one for each of so many facts.
fn best_prices(alloc: Global, lines: &[Line], count: usize) -> Result<Vec<u64>, NoMemory>
    ensures { IfOk result (λ prices. length prices.items ≡ count) }
{
    let best = best_line(lines);
    let mut prices = Vec::new(alloc);
    for f in 0..count {
        let price = match best {
            Some(line) => price_at(&line.prices, f),
            None => 0,
        };
        prices.push(price)?;
    }
    Ok(prices)
}

/// Prices with which the greatest walk costs little, one for each fact, 0 where a fact has none. At most ten sweeps and one
/// guess. The only error is that there is no memory.
pub fn found_prices(
    alloc: Global,
    problem: &Problem,
    facts: &[VisitFact],
) -> Result<Vec<u64>, NoMemory>
    requires { HasSources problem.now }
    ensures { IfOk result (λ prices. length prices.items ≡ length facts.now) }
{
    if facts.is_empty() {
        return Ok(Vec::new(alloc));
    }
    let zero = vec![in alloc; 0; facts.len()]?;
    let mut lines = first_lines(alloc, problem, facts)?;
    for _ in 0..SWEEPS {
        if !add_line(alloc, problem, facts, &zero, &mut lines)? {
            break;
        }
    }
    best_prices(alloc, &lines, facts.len())
}
