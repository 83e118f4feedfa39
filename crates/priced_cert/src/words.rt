//! The words in a line of a price.
ghost use Rattle.std.specs.Prelude.{◌≡◌, ◌==◌, ◌<◌, ◌^◌, ◌++◌, ◌∷◌, decimal, position, MatchOption};
ghost use Rattle.certificates.specs.CertLines.{node_text};
ghost use Rattle.certificates.specs.Finding.{Finds, HasNoSpace, IsFirstPart};
ghost use Rattle.priced_cert.specs.Prices.{IsNode, IsHeader, IsPriceValue, header_text};

use ascii_text::read_u64;

/// What stands before the first space and behind it, if there is one.
pub(crate) fn cut(text: &[u8]) -> Option<(&[u8], &[u8])>
    ensures { MatchOption result (HasNoSpace text.now) (λ r. (text.now ≡ r.0.now ++ 32 ∷ r.1.now) × HasNoSpace r.0.now) }
{
    let (part, rest) = first_part(text);
    match rest {
        [b' ', behind @ ..] => Some((part, behind)),
        _ => None,
    }
}

/// The text up to its first space, and the rest.
fn first_part(text: &[u8]) -> (&[u8], &[u8])
    ensures { IsFirstPart text.now result.0.now result.1.now }
{
    match first_space(text) {
        Some(end) => text.split_at(end),
        None => text.split_at(text.len()),
    }
}

/// The place of the first space, if there is one.
fn first_space(text: &[u8]) -> Option<usize>
    ensures { result ≡ position (λ byte. byte == 32) text.now }
{
    text.iter().position(|byte| *byte == b' ')
}

/// The number of 64 bits that the text is, if it is one.
fn number(text: &[u8]) -> Option<u64>
    ensures { Finds decimal (λ n. n < 2 ^ 64) text.now result }
{
    read_u64(text)
}

/// The price that the text is, if it is one.
pub(crate) fn price(text: &[u8]) -> Option<u64>
    ensures { Finds decimal IsPriceValue text.now result }
{
    let number = number(text)?;
    if number > 0 { Some(number) } else { None }
}

/// The number of a method that the text is, if it is one.
pub(crate) fn method(text: &[u8]) -> Option<u32>
    ensures { Finds decimal (λ n. n < 2 ^ 32) text.now result }
{
    let number = number(text)?;
    if number <= u64::from(u32::MAX) {
        Some(number as u32)
    } else {
        None
    }
}

/// The place of an instruction that the text is, if it is one.
fn place(text: &[u8]) -> Option<u32>
    ensures { Finds decimal (λ n. n < 2 ^ 31) text.now result }
{
    let place = method(text)?;
    if place < 1 << 31 { Some(place) } else { None }
}

/// The node that the text is, if it is one.
pub(crate) fn node(text: &[u8]) -> Option<u32>
    ensures { Finds node_text IsNode text.now result }
{
    match text.strip_suffix(b"r") {
        Some(digits) => Some(2 * place(digits)? + 1),
        None => Some(2 * place(text)?),
    }
}

/// The header that the text says behind `per`, if it says one.
pub(crate) fn header(text: &[u8]) -> Option<u32>
    ensures { Finds header_text IsHeader text.now result }
{
    Some(2 * place(text.strip_prefix(b"per ")?)?)
}
