//! The parts of a line.
ghost use Rattle.std.specs.Prelude.{◌≡◌, ◌≢◌, ◌==◌, ◌<◌, ◌∷◌, [], ℕ, List, length, position, slice_index, MatchOption, IfSome, IfNone};
ghost use Rattle.std.specs.List.{slice_split};
ghost use Rattle.bound_texts.specs.Loops.Lines.{IsNumber};
ghost use Rattle.bound_texts.specs.Sources.Grammar.{IsSource, IsLoopWord};
ghost use Rattle.bound_texts.specs.Sources.Meaning.{AreParts};

use ascii_text::read_u64;

/// The parts between the spaces of a line, where they are two or three.
#[derive(Clone, Copy)]
pub(crate) enum Parts<'a> {
    Two(&'a [u8], &'a [u8]),
    Three(&'a [u8], &'a [u8], &'a [u8]),
    Other,
}

/// The parts of a line.
pub(crate) fn parts_of<'a>(line: &'a [u8]) -> Parts<'a>
    ensures { AreParts line.now result }
{
    let Some((first, rest)) = cut(line) else {
        return Parts::Other;
    };
    match cut(rest) {
        None => Parts::Two(first, rest),
        Some((second, third)) => three(first, second, third),
    }
}

/// The parts of a line with two spaces and the rest behind them.
fn three<'a>(first: &'a [u8], second: &'a [u8], rest: &'a [u8]) -> Parts<'a>
    ensures { (line : List ℕ) → slice_split (λ byte. byte == 32) line ≡ first.now ∷ second.now ∷ slice_split (λ byte. byte == 32) rest.now
        → AreParts line result }
{
    match cut(rest) {
        None => Parts::Three(first, second, rest),
        Some(_) => Parts::Other,
    }
}

/// What stands before the first space and behind it, if there is one.
fn cut<'a>(text: &'a [u8]) -> Option<(&'a [u8], &'a [u8])>
    ensures { MatchOption result (slice_split (λ byte. byte == 32) text.now ≡ text.now ∷ [])
        (λ r. slice_split (λ byte. byte == 32) text.now ≡ r.0.now ∷ slice_split (λ byte. byte == 32) r.1.now) }
{
    match first_space(text) {
        Some(end) => Some((&text[..end], &text[end + 1..])),
        None => None,
    }
}

/// The place of the first space, if there is one.
fn first_space(text: &[u8]) -> Option<usize>
    ensures { result ≡ position (λ byte. byte == 32) text.now }
{
    text.iter().position(|byte| *byte == b' ')
}

/// The file and the line of `FILE:LINE`.
pub(crate) fn read_source<'a>(text: &'a [u8]) -> Option<(&'a [u8], u32)>
    ensures read { IfSome result (λ r. IsSource text.now r.0.now r.1) }
    ensures none { IfNone result ((file : List ℕ) (line : ℕ) → ¬ IsSource text.now file line) }
{
    let colon = last_colon(text)?;
    if colon == 0 {
        return None;
    }
    let line = read_u32(&text[colon + 1..])?;
    Some((&text[..colon], line))
}

/// The place of the last colon, if there is one.
fn last_colon(text: &[u8]) -> Option<usize>
    ensures found { IfSome result (λ i. (i < length text.now) × (slice_index text.now i ≡ 58)
        × ((k : ℕ) → i < k → k < length text.now → slice_index text.now k ≢ 58)) }
    ensures none { IfNone result ((k : ℕ) → k < length text.now → slice_index text.now k ≢ 58) }
{
    let mut found = None;
    for (i, byte) in text.iter().enumerate() {
        if *byte == b':' {
            found = Some(i);
        }
    }
    found
}

/// The number behind `loop<=`.
pub(crate) fn read_bound(text: &[u8]) -> Option<u32>
    ensures read { IfSome result (IsLoopWord text.now) }
    ensures none { IfNone result ((n : ℕ) → ¬ IsLoopWord text.now n) }
{
    read_u32(text.strip_prefix(b"loop<=")?)
}

/// The value of a decimal number of 32 bits.
pub(crate) fn read_u32(text: &[u8]) -> Option<u32>
    ensures read { IfSome result (λ n. IsNumber text.now n) }
    ensures none { IfNone result ((n : ℕ) → ¬ IsNumber text.now n) }
{
    match read_u64(text) {
        Some(number) => u32::try_from(number).ok(),
        None => None,
    }
}
