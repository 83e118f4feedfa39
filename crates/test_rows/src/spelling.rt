//! The numbers and bytes of a row.
ghost use Rattle.std.specs.Prelude.{◌<◌, IfOk};

use crate::RowFault;
use std::alloc::Global;
use std::num::ParseIntError;
use std::str::FromStr;

/// The decimal numbers of some words.
pub fn numbers<N: FromStr<Err = ParseIntError> + Drop>(
    alloc: Global,
    words: &[&str],
) -> Result<Vec<N>, RowFault> {
    let mut numbers = Vec::new(alloc);
    for word in words {
        numbers.push(word.parse::<N>()?)?;
    }
    Ok(numbers)
}

/// The value of a hexadecimal digit in lower case.
fn digit_of(byte: u8) -> Result<u8, RowFault>
    ensures { IfOk result (λ digit. digit < 16) }
{
    match byte {
        b'0'..=b'9' => Ok(byte - b'0'),
        b'a'..=b'f' => Ok(byte - b'a' + 10),
        _ => Err(RowFault::Malformed),
    }
}

/// The bytes that pairs of hexadecimal digits spell.
pub fn hex_bytes(alloc: Global, digits: &[u8]) -> Result<Vec<u8>, RowFault> {
    let mut bytes = Vec::new(alloc);
    for pair in digits.chunks(2) {
        let [high, low] = pair else {
            return Err(RowFault::Malformed);
        };
        bytes.push(digit_of(*high)? * 16 + digit_of(*low)?)?;
    }
    Ok(bytes)
}
