//! Texts in their one spelling (JVM Specification SE 8, 4.4.7).
ghost use Rattle.std.specs.Prelude.{◌≡◌, option_map};
ghost use Rattle.class_pool.specs.Utf8.{is_single};
ghost use Rattle.class_pool.specs.Reading.{is_pair, is_triple, unit_in, units_in};
ghost use Rattle.base.specs.Reading.{Gives};

use base::FormatFault;
use class_pool::Units;
use std::alloc::Global;

fn is_single(a: u8) -> bool
    ensures { result ≡ is_single a }
{
    0 < a && a < 128
}

fn is_pair(a: u8, b: u8) -> bool
    ensures { result ≡ is_pair a b }
{
    a / 32 == 6 && b / 64 == 2 && (194 <= a || (a == 192 && b == 128))
}

fn is_triple(a: u8, b: u8, c: u8) -> bool
    ensures { result ≡ is_triple a b c }
{
    a / 16 == 14 && b / 64 == 2 && c / 64 == 2 && (225 <= a || 160 <= b)
}

/// The unit at the front, and the bytes behind it.
#[tactic(auto, unfolding(class_pool::specs::Reading::unit_in))]
fn unit_at(bytes: &[u8]) -> Option<(u16, &[u8])>
    ensures { option_map (λ x. (x.0, x.1.now)) result ≡ unit_in bytes.now }
{
    match bytes {
        [a, rest @ ..] if is_single(*a) => Some((u16::from(*a), rest)),
        [a, b, rest @ ..] if is_pair(*a, *b) => {
            Some((u16::from(a % 32) * 64 + u16::from(b % 64), rest))
        }
        [a, b, c, rest @ ..] if is_triple(*a, *b, *c) => {
            let high = u16::from(a % 16) * 4096 + u16::from(b % 64) * 64;
            Some((high + u16::from(c % 64), rest))
        }
        _ => None,
    }
}

/// The text that all of the bytes spell.
pub(crate) fn units_of(alloc: Global, bytes: &[u8]) -> Result<Units, FormatFault>
    ensures { Gives (λ x. x) result (units_in bytes.now) }
{
    let mut units = Vec::new(alloc);
    let mut rest = bytes;
    while !rest.is_empty() {
        let Some((unit, after)) = unit_at(rest) else {
            return Err(FormatFault::Bad);
        };
        units.push(unit)?;
        rest = after;
    }
    Ok(Units::new(units))
}
