//! The operators, on words without a sign (IEEE 1364-2005, 5.1).

ghost use Rattle.std.specs.Prelude.{◌≡◌, ◌+◌, ◌-◌, ◌*◌, ◌/◌, ◌%◌, ◌^◌, ◌<◌, ◌≤◌};
ghost use Rattle.netlist.specs.Meaning.{bit_of, computed};

use crate::net::BinaryOperator;

/// Of a number, so many low bits.
fn low_bits(number: u128, width: u32) -> u64
    requires { width ≤ 64 }
    ensures { result ≡ number % 2 ^ width }
{
    (number % (1 << width)) as u64
}

/// Each bit of a word the other way.
pub fn inverse(word: u64, width: u32) -> u64
    requires { width ≤ 64 }
    ensures { result ≡ 2 ^ width - 1 - word }
{
    ((1u128 << width) - 1).saturating_sub(u128::from(word)) as u64
}

/// The difference's low bits.
fn difference(x: u64, y: u64, width: u32) -> u64
    requires { width ≤ 64 }
    ensures { result ≡ (x + (2 ^ width - y)) % 2 ^ width }
{
    let complement = (1u128 << width).saturating_sub(u128::from(y));
    low_bits(u128::from(x) + complement, width)
}

/// The product's low bits.
fn product(x: u64, y: u64, width: u32) -> u64
    requires { width ≤ 64 }
    ensures { result ≡ (x * y) % 2 ^ width }
{
    low_bits(u128::from(x) * u128::from(y), width)
}

/// A word moved up by so many bits.
fn shifted_up(x: u64, by: u64, width: u32) -> u64
    requires { width ≤ 64 }
    ensures { result ≡ (x * 2 ^ by) % 2 ^ width }
{
    if by >= 64 {
        0
    } else {
        product(x, 1 << by, width)
    }
}

/// A word moved down by so many bits.
fn shifted_down(x: u64, by: u64) -> u64
    ensures { result ≡ x / 2 ^ by }
{
    if by >= 64 { 0 } else { x >> by }
}

/// What an operator makes of a word of this width and another word.
pub fn computed(operator: BinaryOperator, width: u32, x: u64, y: u64) -> u64
    requires { width ≤ 64 }
    ensures { result ≡ computed operator width x y }
{
    match operator {
        BinaryOperator::And => x & y,
        BinaryOperator::Or => x | y,
        BinaryOperator::Xor => x ^ y,
        BinaryOperator::Add => low_bits(u128::from(x) + u128::from(y), width),
        BinaryOperator::Sub => difference(x, y, width),
        BinaryOperator::Mul => product(x, y, width),
        BinaryOperator::Equal => u64::from(x == y),
        BinaryOperator::Less => u64::from(x < y),
        BinaryOperator::Left => shifted_up(x, y, width),
        BinaryOperator::Right => shifted_down(x, y),
    }
}

/// Of a word, so many bits from this one on.
pub fn part(x: u64, low: u32, width: u32) -> u64
    requires { width ≤ 64 }
    ensures { result ≡ x / 2 ^ low % 2 ^ width }
{
    low_bits(u128::from(shifted_down(x, u64::from(low))), width)
}

/// A word above another of this width.
pub fn join(x: u64, y: u64, width: u32) -> u64
    requires width { width ≤ 64 }
    requires fits { x * 2 ^ width + y < 2 ^ 64 }
    ensures { result ≡ x * 2 ^ width + y }
{
    (u128::from(x) * (1 << width) + u128::from(y)) as u64
}
