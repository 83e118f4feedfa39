//! The parts of a line, and the labels and numbers among them.
ghost use Rattle.std.specs.Prelude.{◌≡◌, ◌≤◌, IfOk, IfSome, map};
ghost use Rattle.std.specs.Char.{is_ascii_digit};
ghost use Rattle.std.specs.List.{list_all};
ghost use Rattle.std.specs.Option.{option_map};
ghost use Rattle.microcode_asm.specs.Parts as part;

use ascii_text::read_u64;
use base::NoMemory;
use std::alloc::Global;

/// The parts of a line between its spaces, before its comment.
pub(crate) fn parts_of<'a>(alloc: Global, line: &'a [u8]) -> Result<Vec<&'a [u8]>, NoMemory>
    ensures { IfOk result (λ parts. map (λ p. p.now) parts.items ≡ part.parts_of line.now) }
{
    let parts = line
        .split(|byte| *byte == b' ')
        .filter(|part| !is_blank(part))
        .take_while(|part| !is_comment(part))
        .collect(alloc)?;
    Ok(parts)
}

fn is_blank(text: &[u8]) -> bool
    ensures { result ≡ part.is_empty text.now }
{
    match text {
        [_, ..] => false,
        [] => true,
    }
}

fn is_comment(text: &[u8]) -> bool
    ensures { result ≡ part.is_comment text.now }
{
    match text {
        [first, ..] => *first == b';',
        [] => false,
    }
}

/// Whether the text is this word.
pub(crate) fn is(text: &[u8], word: &[u8]) -> bool
    ensures { result ≡ part.is text.now word.now }
{
    text == word
}

/// Whether the text is a decimal number.
fn is_number(text: &[u8]) -> bool
    ensures { result ≡ part.is_number text.now }
{
    match text {
        [] => false,
        _ => are_digits(text) && !has_leading_zero(text),
    }
}

fn are_digits(text: &[u8]) -> bool
    ensures { result ≡ list_all is_ascii_digit text.now }
{
    text.iter().all(|byte| byte.is_ascii_digit())
}

fn has_leading_zero(text: &[u8]) -> bool
    ensures { result ≡ part.has_leading_zero text.now }
{
    match text {
        [first, _, ..] => *first == b'0',
        _ => false,
    }
}

/// The number that a text is, where it is at most this great.
pub(crate) fn number_up_to(most: u32, text: &[u8]) -> Option<u32>
    ensures number { result ≡ part.number_up_to most text.now }
    ensures most { IfSome result (λ n. n ≤ most) }
{
    let number = match read_u64(text) {
        Some(number) => number,
        None => return None,
    };
    if number <= most as u64 {
        Some(number as u32)
    } else {
        None
    }
}

/// The 32 bits of a constant from -2147483648 to 4294967295.
pub(crate) fn constant_value(text: &[u8]) -> Option<u32>
    ensures { result ≡ part.constant_value text.now }
{
    match text {
        [b'-', digits @ ..] => match number_up_to(0x8000_0000, digits) {
            Some(number) if number != 0 => Some(u32::MAX - number + 1),
            _ => None,
        },
        _ => number_up_to(u32::MAX, text),
    }
}

/// Whether the text is the name of a label: letters, digits and `_`, at least one, and no number.
pub(crate) fn is_name(text: &[u8]) -> bool
    ensures { result ≡ part.is_name text.now }
{
    match text {
        [] => false,
        _ => are_name_bytes(text) && !is_number(text),
    }
}

fn are_name_bytes(text: &[u8]) -> bool
    ensures { result ≡ list_all part.is_name_byte text.now }
{
    text.iter().all(|byte| is_name_byte(*byte))
}

fn is_name_byte(byte: u8) -> bool
    ensures { result ≡ part.is_name_byte byte }
{
    byte.is_ascii_digit()
        || (byte >= b'A' && byte <= b'Z')
        || (byte >= b'a' && byte <= b'z')
        || byte == b'_'
}

/// The name of the label that a part `NAME:` sets.
fn label_of<'a>(text: &'a [u8]) -> Option<&'a [u8]>
    ensures { option_map (λ name. name.now) result ≡ part.label_of text.now }
{
    match text.strip_suffix(b":") {
        Some(name) if is_name(name) => Some(name),
        _ => None,
    }
}

/// The names of the labels that begin a line.
pub(crate) fn labels_of<'a>(alloc: Global, parts: &[&'a [u8]]) -> Result<Vec<&'a [u8]>, NoMemory>
    ensures { IfOk result (λ names. map (λ name. name.now) names.items ≡ part.labels_of (map (λ p. p.now) parts.now)) }
{
    let mut names = Vec::new(alloc);
    for text in parts {
        match label_of(text) {
            Some(name) => names.push(name)?,
            None => return Ok(names),
        }
    }
    Ok(names)
}
