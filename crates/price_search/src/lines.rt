//! Lines below the greatest walk's cost as a function of prices, and where the greatest of them is least.
ghost use Rattle.std.specs.Prelude.{◌≡◌, length, IfOk};

use base::NoMemory;
use std::alloc::Global;

/// At these prices a walk costs so much, and with each cycle more of a price by the slack of its fact more.
#[derive(Drop)]
pub(crate) struct Line {
    pub(crate) prices: Vec<u64>,
    pub(crate) value: i128,
    pub(crate) slacks: Vec<i128>,
}

/// The price at a place, 0 past the end.
pub(crate) fn price_at(prices: &[u64], f: usize) -> u64 {
    prices.get(f).copied().unwrap_or(0)
}

/// The slack of a fact, 0 where none is known.
fn slack_at(line: &Line, f: usize) -> i128 {
    line.slacks.get(f).copied().unwrap_or(0)
}

/// What the line's walk costs at these prices.
fn value_at(line: &Line, prices: &[u64]) -> i128 {
    let mut value = line.value;
    for f in 0..prices.len() {
        let now = i128::from(price_at(&line.prices, f));
        let moved = i128::from(prices[f]).saturating_sub(now);
        value = value.saturating_add(slack_at(line, f).saturating_mul(moved));
    }
    value
}

/// The greatest of the lines there.
pub(crate) fn greatest_at(lines: &[Line], prices: &[u64]) -> i128 {
    let mut greatest = i128::MIN;
    for line in lines {
        greatest = value_at(line, prices).max(greatest);
    }
    greatest
}

/// What a line costs at some prices, and with each cycle more of the price of one fact more.
#[derive(Clone, Copy)]
struct Slope {
    value: i128,
    slack: i128,
}

/// A price of a fact, and the greatest of the lines with it.
#[derive(Clone, Copy)]
struct Tried {
    price: u64,
    value: i128,
}

/// How much greater a price is than the one before.
fn step_to(now: u64, price: u64) -> i128 {
    i128::from(price).saturating_sub(i128::from(now))
}

/// What the line costs where the price is so much greater.
fn value_after(slope: Slope, step: i128) -> i128 {
    slope.value.saturating_add(slope.slack.saturating_mul(step))
}

/// The greatest of the lines where the price becomes this one.
fn with_price(slopes: &[Slope], now: u64, price: u64) -> Tried {
    let step = step_to(now, price);
    let mut value = i128::MIN;
    for slope in slopes {
        value = value_after(*slope, step).max(value);
    }
    Tried { price, value }
}

/// The price at which two lines meet, rounded down.
fn crossing(a: Slope, b: Slope, now: u64) -> Option<u64> {
    let apart = b.value.saturating_sub(a.value);
    let step = apart.checked_div(a.slack.saturating_sub(b.slack))?;
    u64::try_from(i128::from(now).saturating_add(step)).ok()
}

/// Whichever of two prices has the lesser value, the first one where none has.
fn lesser(a: Tried, b: Tried) -> Tried {
    if b.value < a.value { b } else { a }
}

/// The best of this price, of another one and of those beside it.
fn best_beside(slopes: &[Slope], now: u64, price: u64, best: Tried) -> Tried {
    let at = with_price(slopes, now, price);
    let above = with_price(slopes, now, price.saturating_add(1));
    let below = with_price(slopes, now, price.saturating_sub(1));
    lesser(lesser(lesser(best, at), above), below)
}

/// The best of this price and of those where a line meets the others.
fn best_on(slopes: &[Slope], now: u64, line: Slope, best: Tried) -> Tried {
    let mut best = best;
    for other in slopes {
        if let Some(price) = crossing(line, *other, now) {
            best = best_beside(slopes, now, price, best);
        }
    }
    best
}

/// The price at which the greatest of the lines is least.
fn best_price(slopes: &[Slope], now: u64) -> u64 {
    let mut best = lesser(with_price(slopes, now, now), with_price(slopes, now, 0));
    for line in slopes {
        best = best_on(slopes, now, *line, best);
    }
    best.price
}

/// Prices that move, and what each line costs at them.
#[derive(Drop)]
struct Descent {
    prices: Vec<u64>,
    values: Vec<i128>,
}

/// The lines by the price of one fact.
fn slopes(
    alloc: Global,
    lines: &[Line],
    values: &[i128],
    f: usize,
) -> Result<Vec<Slope>, NoMemory> {
    let mut slopes = Vec::new(alloc);
    for i in 0..lines.len() {
        let value = values.get(i).copied().unwrap_or(0);
        let slack = slack_at(&lines[i], f);
        slopes.push(Slope { value, slack })?;
    }
    Ok(slopes)
}

/// Writes a price at a place, if there is one.
fn set_price(prices: &mut [u64], f: usize, price: u64)
    ensures { length prices.new ≡ length prices.old }
{
    if let Some(place) = prices.get_mut(f) {
        *place = price;
    }
}

/// Writes what each line costs where the price is so much greater.
fn move_values(slopes: &[Slope], step: i128, values: &mut [i128]) {
    for i in 0..slopes.len() {
        if let Some(value) = values.get_mut(i) {
            *value = value_after(slopes[i], step);
        }
    }
}

/// Moves the price of one fact to where the greatest of the lines is least; whether it moves.
fn descend(alloc: Global, lines: &[Line], f: usize, descent: &mut Descent) -> Result<bool, NoMemory>
    ensures { length descent.new.prices.items ≡ length descent.old.prices.items }
{
    let now = price_at(&descent.prices, f);
    let slopes = slopes(alloc, lines, &descent.values, f)?;
    let price = best_price(&slopes, now);
    set_price(&mut descent.prices, f, price);
    move_values(&slopes, step_to(now, price), &mut descent.values);
    Ok(price != now)
}

/// Moves each price once, from the first or from the last on; whether one moves.
fn descend_all(
    alloc: Global,
    lines: &[Line],
    backwards: bool,
    descent: &mut Descent,
) -> Result<bool, NoMemory>
    ensures { length descent.new.prices.items ≡ length descent.old.prices.items }
{
    let count = descent.prices.len();
    let mut moves = false;
    for k in 0..count {
        let f = if backwards { count - 1 - k } else { k };
        if descend(alloc, lines, f, descent)? {
            moves = true;
        }
    }
    Ok(moves)
}

/// What each line costs at these prices.
fn values_at(alloc: Global, lines: &[Line], prices: &[u64]) -> Result<Vec<i128>, NoMemory> {
    let mut values = Vec::new(alloc);
    for line in lines {
        values.push(value_at(line, prices))?;
    }
    Ok(values)
}

/// Where the greatest of the lines is least, as far as moves of one price at a time from these prices tell.
pub(crate) fn least_from(
    alloc: Global,
    lines: &[Line],
    from: &[u64],
    backwards: bool,
) -> Result<Vec<u64>, NoMemory>
    ensures { IfOk result (λ prices. length prices.items ≡ length from.now) }
{
    let prices = from.to_vec(alloc)?;
    let values = values_at(alloc, lines, from)?;
    let mut descent = Descent { prices, values };
    for _ in 0..4 {
        if !descend_all(alloc, lines, backwards, &mut descent)? {
            break;
        }
    }
    Ok(descent.prices)
}
