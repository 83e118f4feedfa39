//! Bytes among words.
ghost use Rattle.std.specs.Prelude.{◌≡◌, ◌++◌, ◌<◌, ◌^◌, slice_index, OnOk};
ghost use Rattle.base.specs.Packed.{word_at_bytes, words_of_bytes};

use base::NoMemory;

/// A byte of these; past their end, 0.
fn byte_at(bytes: &[u8], k: usize) -> u8
    ensures { result ≡ slice_index bytes.now k }
{
    bytes.get(k).copied().unwrap_or(0)
}

/// Four bytes from a place on as a word, the high one first.
fn word_at(bytes: &[u8], k: usize) -> u32
    requires { k < 2 ^ 63 }
    ensures { result ≡ word_at_bytes bytes.now k }
{
    let high = u32::from(byte_at(bytes, k)) * 256 + u32::from(byte_at(bytes, k + 1));
    let low = u32::from(byte_at(bytes, k + 2)) * 256 + u32::from(byte_at(bytes, k + 3));
    high * 65536 + low
}

/// The bytes, four a word, the last filled with zeros, put behind other words.
pub fn add_bytes(words: &mut Vec<u32>, bytes: &[u8]) -> Result<(), NoMemory>
    ensures { OnOk result (words.new.items ≡ words.old.items ++ words_of_bytes bytes.now) }
{
    for k in 0..bytes.len().div_ceil(4) {
        words.push(word_at(bytes, 4 * k))?;
    }
    Ok(())
}
