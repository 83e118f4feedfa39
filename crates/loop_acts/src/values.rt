//! Which value of a local variable is the first that leaves a loop, by arithmetic.

ghost use Rattle.std.specs.Prelude.{◌≡◌, ◌≢◌, ◌↔◌, ℕ, ℤ, ◌*◌, ◌^◌, ◌<◌, ◌≤◌, not, true, IsTrue, IfSome, pos, negsuc, ◌≤ℤ◌, ◌-ℤ◌, FitsSigned};
ghost use Rattle.std.specs.Int.{w32};
ghost use Rattle.code_scan.specs.Rows.{test_of};
ghost use Rattle.loop_acts.specs.Values.{IsFirst, IsMove, value_by};

use code_scan::Comparison;

/// The comparison that holds just where another one doesn't.
pub fn opposite(comparison: Comparison) -> Comparison
    ensures { (y x : ℤ) → test_of result y x ≡ not (test_of comparison y x) }
{
    match comparison {
        Comparison::Equal => Comparison::Unequal,
        Comparison::Unequal => Comparison::Equal,
        Comparison::Less => Comparison::AtLeast,
        Comparison::AtLeast => Comparison::Less,
        Comparison::Greater => Comparison::AtMost,
        Comparison::AtMost => Comparison::Greater,
    }
}

/// The least number of steps that come to a distance or further.
fn steps_over(distance: u64, step: u64) -> u64
    requires some { 0 < step }
    requires few { step ≤ 2 ^ 32 }
    requires near { distance ≤ 2 ^ 36 }
    ensures reaches { distance ≤ result * step }
    ensures least { (k : ℕ) → k < result → k * step < distance }
{
    (distance + (step - 1)) / step
}

/// How many steps come first to a distance or further.
fn over(distance: u64, step: u64, room: u64) -> Option<u64>
    requires some { 0 < step }
    requires few { step ≤ 2 ^ 32 }
    requires near { distance ≤ 2 ^ 36 }
    requires room { room < 2 ^ 32 }
    ensures { IsMove step room (λ x. distance ≤ x) result }
{
    let steps = steps_over(distance, step);
    if steps <= room / step {
        Some(steps)
    } else {
        None
    }
}

/// How many steps come to just a distance.
fn onto(distance: u64, step: u64, room: u64) -> Option<u64>
    requires { 0 < step }
    ensures { IsMove step room (λ x. x ≡ distance) result }
{
    if room < distance {
        return None;
    }
    if distance % step != 0 {
        return None;
    }
    Some(distance / step)
}

/// How many steps come away from the first value.
fn away(step: u64, room: u64) -> Option<u64>
    requires { 0 < step }
    ensures { IsMove step room (λ x. x ≢ 0) result }
{
    if step <= room { Some(1) } else { None }
}

/// How many steps come first to a value that isn't below the bound.
fn above(first: i64, up: bool, step: u64, room: u64, bound: i64) -> Option<u64>
    requires some { 0 < step }
    requires few { step ≤ 2 ^ 32 }
    requires room { room < 2 ^ 32 }
    requires first { FitsSigned w32 first }
    requires low { negsuc (2 ^ 33) ≤ℤ bound }
    requires high { bound ≤ℤ pos (2 ^ 33) }
    ensures { IsMove step room (λ x. bound ≤ℤ value_by up first x) result }
{
    if bound <= first {
        Some(0)
    } else if up {
        over((bound - first) as u64, step, room)
    } else {
        None
    }
}

/// How many steps come first to a value that isn't above the bound.
fn below(first: i64, up: bool, step: u64, room: u64, bound: i64) -> Option<u64>
    requires some { 0 < step }
    requires few { step ≤ 2 ^ 32 }
    requires room { room < 2 ^ 32 }
    requires first { FitsSigned w32 first }
    requires low { negsuc (2 ^ 33) ≤ℤ bound }
    requires high { bound ≤ℤ pos (2 ^ 33) }
    ensures { IsMove step room (λ x. value_by up first x ≤ℤ bound) result }
{
    if first <= bound {
        Some(0)
    } else if up {
        None
    } else {
        over((first - bound) as u64, step, room)
    }
}

/// How many steps come first to a value.
fn equal(first: i64, up: bool, step: u64, room: u64, bound: i64) -> Option<u64>
    requires some { 0 < step }
    requires first { FitsSigned w32 first }
    requires bound { FitsSigned w32 bound }
    ensures { IsMove step room (λ x. value_by up first x ≡ bound) result }
{
    if first == bound {
        Some(0)
    } else if up && first < bound {
        onto((bound - first) as u64, step, room)
    } else if !up && bound < first {
        onto((first - bound) as u64, step, room)
    } else {
        None
    }
}

/// How many steps come first to another value.
fn unequal(first: i64, up: bool, step: u64, room: u64, bound: i64) -> Option<u64>
    requires { 0 < step }
    ensures { IsMove step room (λ x. value_by up first x ≢ bound) result }
{
    if first == bound {
        away(step, room)
    } else {
        Some(0)
    }
}

/// How many steps come first to a value that compares so with the limit.
fn moves(first: i64, up: bool, step: u64, room: u64, out: Comparison, limit: i32) -> Option<u64>
    requires some { 0 < step }
    requires few { step ≤ 2 ^ 32 }
    requires room { room < 2 ^ 32 }
    requires first { FitsSigned w32 first }
    ensures { IsMove step room (λ x. test_of out limit (value_by up first x) ≡ true) result }
{
    let limit = i64::from(limit);
    match out {
        Comparison::Equal => equal(first, up, step, room, limit),
        Comparison::Unequal => unequal(first, up, step, room, limit),
        Comparison::Less => below(first, up, step, room, limit - 1),
        Comparison::AtLeast => above(first, up, step, room, limit),
        Comparison::Greater => above(first, up, step, room, limit + 1),
        Comparison::AtMost => below(first, up, step, room, limit),
    }
}

/// How far a value may move and stay an int.
fn room(first: i64, up: bool) -> u64
    requires { FitsSigned w32 first }
    ensures room { (x : ℕ) → FitsSigned w32 (value_by up first x) ↔ (x ≤ result) }
    ensures small { result < 2 ^ 32 }
{
    if up {
        (2_147_483_647 - first) as u64
    } else {
        (first + 2_147_483_648) as u64
    }
}

/// The same number in 32 bits.
fn narrowed(steps: Option<u64>) -> Option<u32>
    requires { IfSome steps (λ n. n < 2 ^ 32) }
    ensures { result ≡ steps }
{
    match steps {
        Some(n) => Some(n as u32),
        None => None,
    }
}

/// The number of the first value that compares so with the limit, where it and all before it are ints. The values begin with `first`
/// and move by a step.
pub fn first_out(first: i64, step: i32, out: Comparison, limit: i32) -> Option<u32>
    requires { step ≢ pos 0 }
    ensures { IsFirst first step (λ value. test_of out limit value) result }
{
    if first < -2_147_483_648 || 2_147_483_647 < first {
        return None;
    }
    let up = 0 < step;
    let size = u64::from(step.unsigned_abs());
    narrowed(moves(first, up, size, room(first, up), out, limit))
}
