//! The words of a row.

use std::alloc::Global;
use test_rows::{RowFault, hex_bytes};

/// The bytes of a word of hexadecimal digits, after `N*` so often.
pub fn bytes(alloc: Global, word: &str) -> Result<Vec<u8>, RowFault> {
    let (times, digits) = match word.split_once('*') {
        Some((times, digits)) => (times.parse::<u16>()?, digits),
        None => (1, word),
    };
    let once = hex_bytes(alloc, digits.as_bytes())?;
    let mut bytes = Vec::new(alloc);
    for _ in 0..times {
        bytes.extend_from_slice(&once)?;
    }
    Ok(bytes)
}

/// The words before `at` and those behind it.
pub fn parted<'a, 'b>(words: &'a [&'b str]) -> Result<(&'a [&'b str], &'a [&'b str]), RowFault> {
    for (k, word) in words.iter().enumerate() {
        if *word == "at" {
            return Ok((&words[..k], &words[k + 1..]));
        }
    }
    Err(RowFault::Malformed)
}
