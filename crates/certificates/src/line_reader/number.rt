//! The numbers in a line.
ghost use Rattle.std.specs.Prelude.{◌<◌, ◌^◌, ◌∷◌, decimal};
ghost use Rattle.std.specs.Fmt.{signed_decimal};
ghost use Rattle.certificates.specs.Finding.{Finds};
ghost use Rattle.certificates.specs.CertLines.{node_text};
ghost use Rattle.section_check.specs.Section.{IsPotential};

use ascii_text::read_u64;

/// The number of 64 bits that the text is, if it is one.
pub(crate) fn number(text: &[u8]) -> Option<u64>
    ensures { Finds decimal (λ n. n < 2 ^ 64) text.now result }
{
    read_u64(text)
}

/// The number of 32 bits that the text is, if it is one.
pub(crate) fn method(text: &[u8]) -> Option<u32>
    ensures { Finds decimal (λ n. n < 2 ^ 32) text.now result }
{
    let number = number(text)?;
    if number <= u64::from(u32::MAX) {
        Some(number as u32)
    } else {
        None
    }
}

/// The number of 31 bits that the text is, if it is one: the place of an instruction.
pub(crate) fn place(text: &[u8]) -> Option<u32>
    ensures { Finds decimal (λ n. n < 2 ^ 31) text.now result }
{
    let place = method(text)?;
    if place < 1 << 31 { Some(place) } else { None }
}

/// The node that the text is, if it is one.
pub(crate) fn node(text: &[u8]) -> Option<u32>
    ensures { Finds node_text (λ u. u < 2 ^ 32) text.now result }
{
    match text.strip_suffix(b"r") {
        Some(digits) => Some(2 * place(digits)? + 1),
        None => Some(2 * place(text)?),
    }
}

/// The potential that the text is, if it is one.
pub(crate) fn potential(text: &[u8]) -> Option<i128>
    ensures { Finds signed_decimal IsPotential text.now result }
{
    match text {
        [b'-', digits @ ..] => negative(digits),
        _ => Some(i128::from(number(text)?)),
    }
}

/// The potential that the digits are behind a sign, if they are one.
fn negative(digits: &[u8]) -> Option<i128>
    ensures { Finds signed_decimal IsPotential (45 ∷ digits.now) result }
{
    let Some(number) = number(digits) else {
        return None;
    };
    if number == 0 {
        return None;
    }
    Some(-i128::from(number))
}
