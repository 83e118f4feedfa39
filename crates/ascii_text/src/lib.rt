//! Numbers, in decimal and in hexadecimal digits, and lines in texts.
#![tactic(auto)]

ghost use Rattle.std.specs.Prelude.{◌≡◌};
ghost use Rattle.ascii_text.specs.Line.{lines_of, AreLines};

mod hex;
mod number;
mod pieces;

pub use base::NoMemory;
pub use hex::{hex_digits, short_hex};
pub use number::{put_u64, read_u64};
pub use pieces::Lines;

/// The lines of a text, without their line feeds.
///
/// A piece that ends with a line feed is a line, and so is a last piece that is not empty and has none.
pub fn lines<'a>(text: &'a [u8]) -> Lines<'a>
    ensures lines { result ≡ lines_of text.now }
    ensures pieces { AreLines text.now result }
{
    Lines::new(text)
}

#[cfg(test)]
mod tests;
