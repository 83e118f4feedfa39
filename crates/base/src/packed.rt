//! Bytes in words.
ghost use Rattle.std.specs.Prelude.{◌≡◌, ◌<◌, ◌≤◌, length, IfOk, slice_index};
ghost use Rattle.base.specs.Packed.{byte_of, word_at_bytes, words_of_bytes};

use crate::NoMemory;
use std::alloc::Global;

/// A byte of a word, the high one first.
pub fn byte_of_word(word: u32, k: u32) -> u8
    requires { k < 4 }
    ensures { result ≡ byte_of word k }
{
    ((word >> (8 * (3 - k))) % 256) as u8
}

/// The bytes as words of four, the high one first, of which the last is filled with zeros. The only error is
/// that there was no memory.
pub fn pack(alloc: Global, bytes: &[u8]) -> Result<Vec<u32>, NoMemory>
    requires { length bytes.now ≤ 4096 }
    ensures { IfOk result (λ words. words.items ≡ words_of_bytes bytes.now) }
{
    let mut words = Vec::new(alloc);
    for k in 0..bytes.len().div_ceil(4) {
        words.push(word_at(bytes, 4 * k))?;
    }
    Ok(words)
}

/// Four bytes from a place on as a word, the high one first. Those past the end are 0.
fn word_at(bytes: &[u8], k: usize) -> u32
    requires { k ≤ 8192 }
    ensures { result ≡ word_at_bytes bytes.now k }
{
    let high = byte_at(bytes, k) as u32 * 256 + byte_at(bytes, k + 1) as u32;
    let low = byte_at(bytes, k + 2) as u32 * 256 + byte_at(bytes, k + 3) as u32;
    high * 65536 + low
}

fn byte_at(bytes: &[u8], k: usize) -> u8
    ensures { result ≡ slice_index bytes.now k }
{
    bytes.get(k).copied().unwrap_or(0)
}
