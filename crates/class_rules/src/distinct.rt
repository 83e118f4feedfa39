//! Whether no two members have the same name and descriptor, in time n log n in the size of the pool and the number of members.
//!
//! The texts of the pool are numbered once, texts of the same units alike. Members are then compared by the numbers of their texts.
ghost use Rattle.std.specs.Prelude.{◌≡◌, ℕ, List, [], Some, IfOk, unwrap_or, slice_index, if◌then◌else◌};
ghost use Rattle.std.specs.Str.{bytes_eq};
ghost use Rattle.class_pool.specs.Grammar.{utf8_of};
ghost use Rattle.class_rules.specs.Tests.{are_distinct};
ghost use Rattle.class_rules.specs.Distinct.{number_in, AreNumbers, key_of};

use base::NoMemory;
use class_pool::{Entry, Member, Pool};
use std::alloc::Global;
use std::collections::{BTreeMap, BTreeSet};

/// The units of a text, and none for any other entry.
fn text_of(entry: &Entry) -> &[u16]
    ensures { result.now ≡ unwrap_or (utf8_of (Some entry.now)) [] }
{
    match entry {
        Entry::Utf8(units) => units.as_slice(),
        _ => &[],
    }
}

/// The number of a text: the one that it has, or the next one, which it then has.
fn number_of<'a>(
    numbers: &mut BTreeMap<&'a [u16], usize>,
    text: &'a [u16],
    next: usize,
) -> Result<usize, NoMemory>
    ensures found { IfOk result (λ number. number ≡ unwrap_or (number_in numbers.old text.now) next) }
    ensures numbered { IfOk result (λ number. (units : List ℕ) →
        number_in numbers.new units ≡ (if bytes_eq text.now units then Some number else number_in numbers.old units)) }
{
    if let Some(number) = numbers.get(text) {
        return Ok(*number);
    }
    numbers.insert(text, next)?;
    Ok(next)
}

/// A number for the text of each index, at the place of the index; place 0 has the number of no text.
pub(crate) fn numbers_of(alloc: Global, pool: &Pool) -> Result<Vec<usize>, NoMemory>
    ensures { IfOk result (λ numbers. AreNumbers pool.now numbers.items) }
{
    let mut known: BTreeMap<&[u16], usize> = BTreeMap::new(alloc);
    let mut numbers = Vec::new(alloc);
    let none = number_of(&mut known, &[], 0)?;
    numbers.push(none)?;
    for entry in pool.entries() {
        let number = number_of(&mut known, text_of(entry), numbers.len())?;
        numbers.push(number)?;
    }
    Ok(numbers)
}

fn number_at(numbers: &[usize], index: u16) -> usize
    ensures { result ≡ slice_index numbers.now index }
{
    match numbers.get(usize::from(index)) {
        Some(number) => *number,
        None => 0,
    }
}

/// The numbers of a member's name and descriptor.
fn key_of(numbers: &[usize], m: &Member) -> (usize, usize)
    ensures { result ≡ key_of numbers.now m.now }
{
    (number_at(numbers, m.name), number_at(numbers, m.descriptor))
}

/// Whether no two members have the same name and descriptor (JVM Specification SE 8, 4.5 and 4.6).
pub(crate) fn are_distinct(
    alloc: Global,
    pool: &Pool,
    numbers: &[usize],
    members: &[Member],
) -> Result<bool, NoMemory>
    requires { AreNumbers pool.now numbers.now }
    ensures { IfOk result (λ x. x ≡ are_distinct pool.now members.now) }
{
    let mut seen = BTreeSet::new(alloc);
    let mut rest = members;
    while let [m, others @ ..] = rest {
        if !seen.insert(key_of(numbers, m))? {
            return Ok(false);
        }
        rest = others;
    }
    Ok(true)
}
