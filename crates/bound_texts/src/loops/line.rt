//! A line of the text.
ghost use Rattle.std.specs.Prelude.{◌≡◌, ◌==◌, ◌^◌, ℕ, position, List, [], ◌∷◌, ◌++◌, codes, MatchOption, IfSome, IfNone};
ghost use Rattle.std.specs.List.{slice_split};
ghost use Rattle.bound_texts.specs.Loops.Bounds.{LoopBound};
ghost use Rattle.bound_texts.specs.Loops.Lines.{IsNumber, IsNumberBelow, IsBoundLine, word_of, limit_of};
ghost use Rattle.bound_texts.specs.Loops.Meaning.{FindsBound, bound_at};

use super::quantity::Quantity;
use ascii_text::read_u64;

/// The greatest length of an array, in elements.
const LONGEST: u32 = 2_147_483_647;

/// What a line says.
#[derive(Clone, Copy)]
pub(crate) enum Said<'a> {
    /// It is empty or a remark.
    Nothing,
    /// A place and its bound.
    Bound(Found<'a>),
    /// It is no line of the grammar.
    Malformed,
}

/// A place of a method, and its bound.
#[derive(Clone, Copy)]
pub(crate) struct Found<'a> {
    pub name: &'a [u8],
    pub pc: u32,
    pub bound: u32,
}

/// What a line says.
pub(crate) fn read_line<'a>(quantity: Quantity, line: &'a [u8]) -> Said<'a>
    ensures { FindsBound quantity line.now result }
{
    match line {
        [] | [b'#', ..] => Said::Nothing,
        _ => match read_found(quantity, line) {
            Some(found) => Said::Bound(found),
            None => Said::Malformed,
        },
    }
}

/// The bound that a line gives, if it gives one.
fn read_found<'a>(quantity: Quantity, line: &'a [u8]) -> Option<Found<'a>>
    ensures read { IfSome result (λ r. IsBoundLine quantity line.now (bound_at r)) }
    ensures none { IfNone result ((b : LoopBound) → ¬ IsBoundLine quantity line.now b) }
{
    let (name, pc, bound) = three_parts(line)?;
    if name.is_empty() {
        return None;
    }
    let (pc, bound) = (read_u32(pc)?, read_bound(quantity, bound)?);
    Some(Found { name, pc, bound })
}

/// The three parts of a line that has two spaces.
fn three_parts<'a>(line: &'a [u8]) -> Option<(&'a [u8], &'a [u8], &'a [u8])>
    ensures three { IfSome result (λ r. slice_split (λ byte. byte == 32) line.now ≡ r.0.now ∷ r.1.now ∷ r.2.now ∷ []) }
    ensures other { IfNone result ((a : List ℕ) (b : List ℕ) (c : List ℕ) → ¬ (slice_split (λ byte. byte == 32) line.now ≡ a ∷ b ∷ c ∷ [])) }
{
    let (first, rest) = cut(line)?;
    let (second, third) = cut(rest)?;
    match cut(third) {
        None => Some((first, second, third)),
        Some(_) => None,
    }
}

/// What stands before the first space and behind it, if there is one.
fn cut<'a>(text: &'a [u8]) -> Option<(&'a [u8], &'a [u8])>
    ensures { MatchOption result (slice_split (λ byte. byte == 32) text.now ≡ text.now ∷ [])
        (λ r. slice_split (λ byte. byte == 32) text.now ≡ r.0.now ∷ slice_split (λ byte. byte == 32) r.1.now) }
{
    match first_space(text) {
        Some(end) => Some((&text[..end], &text[end + 1..])),
        None => None,
    }
}

/// The place of the first space, if there is one.
fn first_space(text: &[u8]) -> Option<usize>
    ensures { result ≡ position (λ byte. byte == 32) text.now }
{
    text.iter().position(|byte| *byte == b' ')
}

/// The number behind the word.
fn read_bound(quantity: Quantity, text: &[u8]) -> Option<u32>
    ensures read { IfSome result (λ n. (digits : List ℕ) × (text.now ≡ word_of quantity ++ digits) × IsNumberBelow (limit_of quantity) digits n) }
    ensures none { IfNone result ((digits : List ℕ) (n : ℕ) → text.now ≡ word_of quantity ++ digits → ¬ IsNumberBelow (limit_of quantity) digits n) }
{
    match quantity {
        Quantity::Iterations => read_iterations(text),
        Quantity::Lengths => read_longest(text),
    }
}

/// The number behind `loop<=`.
fn read_iterations(text: &[u8]) -> Option<u32>
    ensures read { IfSome result (λ n. (digits : List ℕ) × (text.now ≡ codes "loop<=" ++ digits) × IsNumber digits n) }
    ensures none { IfNone result ((digits : List ℕ) (n : ℕ) → text.now ≡ codes "loop<=" ++ digits → ¬ IsNumber digits n) }
{
    read_u32(text.strip_prefix(b"loop<=")?)
}

/// The number behind `length<=`.
fn read_longest(text: &[u8]) -> Option<u32>
    ensures read { IfSome result (λ n. (digits : List ℕ) × (text.now ≡ codes "length<=" ++ digits) × IsNumberBelow (2 ^ 31) digits n) }
    ensures none { IfNone result ((digits : List ℕ) (n : ℕ) → text.now ≡ codes "length<=" ++ digits → ¬ IsNumberBelow (2 ^ 31) digits n) }
{
    read_length(text.strip_prefix(b"length<=")?)
}

/// The value of a decimal number that is a length of arrays.
fn read_length(text: &[u8]) -> Option<u32>
    ensures read { IfSome result (λ n. IsNumberBelow (2 ^ 31) text.now n) }
    ensures none { IfNone result ((n : ℕ) → ¬ IsNumberBelow (2 ^ 31) text.now n) }
{
    match read_u32(text) {
        Some(length) if length <= LONGEST => Some(length),
        _ => None,
    }
}

/// The value of a decimal number of 32 bits.
fn read_u32(text: &[u8]) -> Option<u32>
    ensures read { IfSome result (λ n. IsNumber text.now n) }
    ensures none { IfNone result ((n : ℕ) → ¬ IsNumber text.now n) }
{
    match read_u64(text) {
        Some(number) => u32::try_from(number).ok(),
        None => None,
    }
}
