//! A line of the text.
ghost use Rattle.std.specs.Prelude.{◌≡◌, ◌≢◌, ◌==◌, ◌↔◌, ℕ, List, position, All, IsTrue, MatchOption, IfOk, IfErr};
ghost use Rattle.slot_table.specs.declared.slot.Slot.{Slot};
ghost use Rattle.slot_table.specs.Grammar.{SaysSlot, IsSilentLine, IsSlotLine, IsNoSlotLine, OnBad};
ghost use Rattle.slot_table.specs.Parts.{IsCut, ArePartsOf};

use crate::name::read_word;
use crate::slot::Slot;
use ascii_text::read_u64;
use base::FormatFault;
use std::alloc::Global;

/// The slot of a line, where it has one.
pub(crate) fn read_line(alloc: Global, line: &[u8]) -> Result<Option<Slot>, FormatFault>
    ensures said { IfOk result (SaysSlot line.now) }
    ensures bad { IfErr result (λ fault. OnBad fault (IsNoSlotLine line.now)) }
{
    if is_silent(line) {
        return Ok(None);
    }
    let slot = read_slot(alloc, line)?;
    Ok(Some(slot))
}

/// Whether a line is empty or a remark.
fn is_silent(line: &[u8]) -> bool
    ensures { IsTrue result ↔ IsSilentLine line.now }
{
    matches!(line, [] | [b'#', ..])
}

/// The slot of a line that says one.
fn read_slot(alloc: Global, line: &[u8]) -> Result<Slot, FormatFault>
    ensures said { IfOk result (IsSlotLine line.now) }
    ensures bad { IfErr result (λ fault. OnBad fault ((s : Slot) → ¬ IsSlotLine line.now s)) }
{
    let Some((name, length)) = parts(line) else {
        return Err(FormatFault::Bad);
    };
    let (class, method) = read_word(alloc, name)?;
    Ok(Slot {
        class,
        method,
        length,
    })
}

/// What stands in a line `slot NAME LENGTH`.
fn parts<'a>(line: &'a [u8]) -> Option<(&'a [u8], u64)>
    ensures { MatchOption result ((name : List ℕ) (length : ℕ) → ¬ ArePartsOf line.now name length) (λ r. ArePartsOf line.now r.0.now r.1) }
{
    let (name, length) = cut(line.strip_prefix(b"slot ")?, b' ')?;
    let length = read_u64(length)?;
    if length == 0 {
        return None;
    }
    Some((name, length))
}

/// What stands before the first byte of a value, and behind it.
pub(crate) fn cut<'a>(text: &'a [u8], byte: u8) -> Option<(&'a [u8], &'a [u8])>
    ensures { MatchOption result (All (λ x. x ≢ byte) text.now) (λ r. IsCut byte text.now r.0.now r.1.now) }
{
    match place_of(text, byte) {
        Some(end) => Some((&text[..end], &text[end + 1..])),
        None => None,
    }
}

/// The place of the first byte of a value, if there is one.
fn place_of(text: &[u8], byte: u8) -> Option<usize>
    ensures { result ≡ position (λ x. x == byte) text.now }
{
    text.iter().position(|x| *x == byte)
}
