//! The text of a microprogram's words, a line for each. It stands in `specs/Listing.antt`.
ghost use Rattle.std.specs.Prelude.{◌≡◌, ◌≤◌, length, IfOk};
ghost use Rattle.microcode_asm.specs.Listing.{word_line, listing_of};

use ascii_text::hex_digits;
use base::NoMemory;
use std::alloc::Global;

/// The line of a word: three hexadecimal digits of its address, and its four.
fn word_line(address: u16, word: u16) -> [u8; 9]
    ensures { result ≡ word_line address word }
{
    let [_, _, _, _, _, a, b, c] = hex_digits(address as u32);
    let [_, _, _, _, d, e, f, g] = hex_digits(word as u32);
    [a, b, c, b' ', d, e, f, g, b'\n']
}

/// The text of the words of a microprogram, the first of which has address 0.
pub fn listing_of(alloc: Global, words: &[u16]) -> Result<Vec<u8>, NoMemory>
    requires few { length words.now ≤ 2048 }
    ensures { IfOk result (λ text. text.items ≡ listing_of words.now) }
{
    let mut text = Vec::with_capacity(alloc, 9 * words.len())?;
    for (address, word) in words.iter().enumerate() {
        text.extend_from_slice(&word_line(address as u16, *word))?;
    }
    Ok(text)
}
